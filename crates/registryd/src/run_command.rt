//! What the words of the command line ask for, done.
ghost use Rattle.std.specs.Prelude.{◌≡◌, ◌≢◌, ◌<◌, ◌≤◌, ℕ, length, option_map, string_bytes, vec_len, IfOk};
ghost use Rattle.session.specs.SessionState.{MayBeServed};
ghost use Rattle.journals.specs.Files.{IsHistory};
ghost use Rattle.journals.specs.declared.format.Format.TheVariants.{Two};
ghost use Rattle.session.specs.Step.{state_of};
ghost use Rattle.session.specs.Streams.{streams_of};
ghost use Rattle.command_line.specs.Words.{texts};
ghost use Rattle.command_line.specs.declared.words.TheConstants.{MOST_FILES, MOST_WORKERS};
ghost use Rattle.registryd.specs.Behaves.{Behaves, HasHelped, HasKept, HasRaced, HasServed, HasServedFrom};
ghost use Rattle.registryd.specs.Calls.{file_view, io_of};
ghost use Rattle.registryd.specs.FoundFiles.{IsFoundIn};
ghost use Rattle.registryd.specs.Shown.{shown_text};
ghost use Rattle.registryd.specs.declared.fault.Failure.{Failure};
ghost use Rattle.registryd.specs.declared.fault.FileFault.{FileFault};

use crate::device_calls::DeviceCalls;
use crate::ends::{End, end_of_making, end_of_read};
use crate::fault::{Failure, shown, told};
use crate::files::loaded_from;
use crate::journal_devices::JournalDevices;
use crate::journal_file::{Opened, open_journal};
use crate::recovered::Unbegun;
use crate::system::SystemFile;
use crate::target::{Target, saved_to, target_of};
use answers::{RunFault, Settings};
use command_line::{WordFault, Words, advice_on, read_words};
use lines::write_text;
use race::race;
use session::{SessionState, serve_durably, serve_session};
use std::alloc::Global;
use std::io::{Read, Write};
use std::rt::Files;
use std::sync::Wait;
use std::thread::Threads;
use std::{fs, io, mem};

/// How the program ends, the writer of replies with what it took, and who made the calls at a kept journal.
pub struct CommandOutcome<W, C> {
    pub end: End,
    pub writer: W,
    pub calls: C,
}

/// Does what the words after the program's name ask for, over standard input and output, and tells
/// how that ended.
pub fn run_command<
    H: Wait + Threads + Sync + Files + AllocGlobal,
    R: Read,
    W: Write,
    C: DeviceCalls,
>(
    rt: &H,
    alloc: Global,
    words: &[String],
    reader: &mut R,
    writer: W,
    calls: C,
) -> CommandOutcome<W, C>
where
    H::File: SystemFile,
    // Each line that was read has its lawful reply, in order, as far as it went; those of a race by one journal, which is printed. Of a
    // journal that is kept, each reply went out once what it rests on was durable.
    ensures { Behaves (texts words.now) (io_of (streams_of R.remaining W.contents reader.old reader.new writer result.writer)
        (C.events calls) (C.events result.calls) (file_view H.File.remaining H.File.contents H.File.bytes)) result.end }
{
    let mut writer = writer;
    match read_words(alloc, words) {
        Ok(
            Words::Serve {
                workers,
                budget,
                load,
                save,
            },
        ) => {
            let settings = Settings { budget };
            let from = lent_name(&load);
            let to = lent_name(&save);
            let end = serve(rt, alloc, reader, &mut writer, workers, settings, from, to);
            CommandOutcome { end, writer, calls }
        }
        Ok(
            Words::Keep {
                workers,
                budget,
                journal,
            },
        ) => {
            let settings = Settings { budget };
            keep(
                rt,
                alloc,
                reader,
                writer,
                calls,
                workers,
                settings,
                journal.as_str(),
            )
        }
        Ok(Words::Race { files }) => {
            let end = race_files(rt, alloc, files.as_slice(), &mut writer);
            CommandOutcome { end, writer, calls }
        }
        Err(WordFault::Help) => {
            let end = show_help(alloc, words, &mut writer);
            CommandOutcome { end, writer, calls }
        }
        Err(WordFault::Bad) => CommandOutcome {
            end: End::Words,
            writer,
            calls,
        },
        Err(WordFault::Memory) => CommandOutcome {
            end: End::Memory,
            writer,
            calls,
        },
    }
}

/// The name of a file, if one is named.
fn lent_name(name: &Option<String>) -> Option<&str>
    ensures { option_map (λ t. t.now) result ≡ option_map string_bytes name.now }
{
    match name {
        None => None,
        Some(name) => Some(name.as_str()),
    }
}

/// Serves the lines of a reader: from the items of a journal on where its file is named, and with a journal at the end
/// where a file is named for it.
fn serve<H: Threads + Wait + Sync + Files, R: Read, W: Write>(
    rt: &H,
    alloc: Global,
    reader: &mut R,
    writer: &mut W,
    workers: usize,
    settings: Settings,
    load: Option<&str>,
    save: Option<&str>,
) -> End
where
    H::File: SystemFile,
    requires { (1 ≤ workers) × (workers ≤ MOST_WORKERS) }
    ensures { HasServedFrom H.File.remaining settings (option_map (λ t. t.now) load.entry) (streams_of R.remaining W.contents reader.old reader.new writer.old writer.new) result }
{
    match loaded_from(rt, alloc, load) {
        Ok(served) => serve_to(rt, alloc, reader, writer, workers, settings, served, save),
        Err(end) => end,
    }
}

/// Serves the lines of a reader by a session that stands already, with a journal at the end where a file is named for it.
fn serve_to<H: Threads + Wait + Sync + Files, R: Read, W: Write>(
    rt: &H,
    alloc: Global,
    reader: &mut R,
    writer: &mut W,
    workers: usize,
    settings: Settings,
    begun: SessionState,
    save: Option<&str>,
) -> End
where
    H::File: SystemFile,
    requires { (1 ≤ workers) × (workers ≤ MOST_WORKERS) }
    ensures { HasServed settings (state_of begun) (streams_of R.remaining W.contents reader.old reader.new writer.old writer.new) result }
{
    match target_of(rt, alloc, save) {
        Ok(target) => serve_from(rt, alloc, reader, writer, workers, settings, begun, target),
        Err(e) => {
            drop(begun);
            end_of_making(&e)
        }
    }
}

/// Serves the lines of a reader by a session that stands already.
fn serve_from<H: Threads + Wait + Sync + Files, R: Read, W: Write>(
    rt: &H,
    alloc: Global,
    reader: &mut R,
    writer: &mut W,
    workers: usize,
    settings: Settings,
    begun: SessionState,
    target: Target<H::File>,
) -> End
where
    H::File: SystemFile,
    requires { (1 ≤ workers) × (workers ≤ MOST_WORKERS) }
    ensures { HasServed settings (state_of begun) (streams_of R.remaining W.contents reader.old reader.new writer.old writer.new) result }
{
    match serve_session(rt, alloc, reader, writer, begun, workers, settings) {
        Ok(served) => {
            let end = saved_to(rt, alloc, target, &served);
            // The program ends here, so what they hold needs no walk to be given back.
            mem::forget(served);
            end
        }
        Err(fault) => End::from(fault),
    }
}

/// Serves the lines of a reader, with a journal's file that has what was accepted before it is told.
fn keep<H: Threads + Wait + Sync + Files, R: Read, W: Write, C: DeviceCalls>(
    rt: &H,
    alloc: Global,
    reader: &mut R,
    writer: W,
    calls: C,
    workers: usize,
    settings: Settings,
    journal: &str,
) -> CommandOutcome<W, C>
where
    H::File: SystemFile,
    requires { (1 ≤ workers) × (workers ≤ MOST_WORKERS) }
    ensures { HasKept settings journal.now (io_of (streams_of R.remaining W.contents reader.old reader.new writer result.writer)
        (C.events calls) (C.events result.calls) (file_view H.File.remaining H.File.contents H.File.bytes)) result.end }
{
    let Ok(name) = shown(alloc, journal) else {
        return CommandOutcome {
            end: End::Memory,
            writer,
            calls,
        };
    };
    match open_journal(rt, alloc, journal) {
        Ok(opened) => keep_in(
            rt, alloc, reader, writer, calls, workers, settings, journal, name, opened,
        ),
        Err(why) => CommandOutcome {
            end: end_without(alloc, name, why),
            writer,
            calls,
        },
    }
}

/// How the program ends where no session begins from the file of this name, as it is shown.
fn end_without(alloc: Global, name: Vec<u8>, why: Unbegun) -> End
    ensures kept { (fault : FileFault) → result ≡ End.Kept fault → fault.name.items ≡ name.items }
    ensures failed { (failure : Failure) → why ≡ Unbegun.Failed failure → (fault : FileFault) × (result ≡ End.Kept fault) × (fault.what ≡ failure.what) }
    ensures memory { result ≡ End.Memory → why ≡ Unbegun.Memory }
    ensures done { result ≢ End.Done }
    ensures input { result ≢ End.Input }
    ensures output { result ≢ End.Output }
    ensures words { result ≢ End.Words }
    ensures no_journal { (line : ℕ) → result ≢ End.Journal line }
{
    match why {
        Unbegun::Memory => End::Memory,
        Unbegun::Failed(failure) => End::Kept(told(alloc, name, failure)),
    }
}

/// Serves the lines of a reader by a session that stands already, whose journal is in a file.
fn keep_in<
    H: Threads + Wait + Sync + Files,
    R: Read,
    F: Read + Write + SystemFile + Drop,
    W: Write,
    C: DeviceCalls,
>(
    rt: &H,
    alloc: Global,
    reader: &mut R,
    writer: W,
    calls: C,
    workers: usize,
    settings: Settings,
    journal: &str,
    name: Vec<u8>,
    opened: Opened<F>,
) -> CommandOutcome<W, C>
    requires workers { (1 ≤ workers) × (workers ≤ MOST_WORKERS) }
    requires served { MayBeServed opened.begun }
    requires history { IsHistory Two opened.begun }
    requires found { IsFoundIn F.remaining F.bytes opened.begun opened.file }
    requires named { name.items ≡ shown_text journal.now }
    ensures { HasKept settings journal.now (io_of (streams_of R.remaining W.contents reader.old reader.new writer result.writer)
        (C.events calls) (C.events result.calls) (file_view F.remaining F.contents F.bytes)) result.end }
{
    let Opened {
        file,
        held,
        len,
        begun,
    } = opened;
    let mut devices = JournalDevices {
        rt,
        name: journal,
        file,
        replies: writer,
        calls,
        held,
        len,
        failure: None,
    };
    let ended = serve_durably(rt, alloc, reader, &mut devices, begun, workers, settings);
    let JournalDevices {
        rt: _,
        name: _,
        file,
        replies: writer,
        calls,
        held: _,
        len: _,
        failure,
    } = devices;
    drop(file);
    match ended {
        Ok(served) => {
            // The program ends here, so what they hold needs no walk to be given back.
            mem::forget(served);
            CommandOutcome {
                end: End::Done,
                writer,
                calls,
            }
        }
        Err(fault) => CommandOutcome {
            end: end_of_keeping(alloc, name, fault, failure),
            writer,
            calls,
        },
    }
}

/// How the program ends where a session ended so, and this failed at its file, if something did.
fn end_of_keeping(alloc: Global, name: Vec<u8>, fault: RunFault, failure: Option<Failure>) -> End
    ensures done { result ≢ End.Done }
    ensures memory { result ≡ End.Memory → fault ≡ RunFault.Memory }
    ensures input { result ≡ End.Input → fault ≡ RunFault.Input }
    ensures output { result ≡ End.Output → (fault ≡ RunFault.Output) × (failure ≡ None) }
    ensures kept { (told : FileFault) → result ≡ End.Kept told → (fault ≡ RunFault.Output) × (told.name ≡ name) }
    ensures failed { (failed : Failure) (told : FileFault) → failure ≡ Some failed → result ≡ End.Kept told → told.what ≡ failed.what }
    ensures words { result ≢ End.Words }
    ensures no_journal { (line : ℕ) → result ≢ End.Journal line }
{
    match (fault, failure) {
        (RunFault::Output, Some(failure)) => End::Kept(told(alloc, name, failure)),
        (fault, _) => End::from(fault),
    }
}

/// Runs the race of these files. Each file is read whole first.
fn race_files<H: Threads + Sync + Files + AllocGlobal, W: Write>(
    rt: &H,
    alloc: Global,
    names: &[String],
    writer: &mut W,
) -> End
    requires some { 0 < length names.now }
    requires few { length names.now ≤ MOST_FILES }
    ensures { HasRaced (length names.now) (W.contents writer.old) (W.contents writer.new) result }
{
    match read_files(rt, alloc, names) {
        Ok(files) => match race(rt, alloc, files, writer, Settings { budget: None }) {
            Ok(()) => End::Done,
            Err(fault) => End::from(fault),
        },
        Err(e) => end_of_read(&e),
    }
}

/// The bytes of these files.
fn read_files<H: Files + AllocGlobal>(
    rt: &H,
    alloc: Global,
    names: &[String],
) -> io::Result<Vec<Vec<u8>>>
    ensures { IfOk result (λ files. vec_len files ≡ length names.now) }
{
    let mut files = Vec::with_capacity(alloc, names.len())?;
    for name in names {
        files.push(fs::read(rt, name.as_str())?)?;
    }
    Ok(files)
}

/// Writes the help that these words ask for.
fn show_help<W: Write>(alloc: Global, words: &[String], writer: &mut W) -> End
    ensures { HasHelped (W.contents writer.old) (W.contents writer.new) result }
{
    let Ok(text) = advice_on(alloc, words) else {
        return End::Memory;
    };
    match write_text(writer, text.as_bytes()) {
        Ok(()) => End::Done,
        Err(_) => End::Output,
    }
}
