//! A number for each package, in pages.

ghost use Rattle.std.specs.Prelude.{◌≡◌, ◌<◌, ◌≤◌, ◌==◌, ◌^◌, ℕ, if◌then◌else◌, length, slice_index, None, Some, IfOk, OnErr, OnOk};
ghost use Rattle.walk.specs.Pages.{number_at};

use registry::Pkg;
use std::alloc::{AllocError, Global};
use std::marker::Model;

/// How many packages share a page. With 64, and room for 4 pages at first, requests for the crates of Debian take 3 %
/// more instructions.
const PAGE: usize = 32;

/// For how many pages room is made at first.
const FIRST_PAGES: usize = 32;

/// A number for each package, or none.
///
/// Packages whose numbers are close share a page, which is made once one of them gets a number. So the room grows with
/// the pages that are made, and by one place for each 32 packages up to the highest.
#[derive(Drop)]
pub struct PackageTable {
    /// By the index of a page of packages, where it stands among those that are made. The first of these has no number:
    /// it stands for all that are not made.
    pages: Vec<usize>,
    /// The pages that are made, one behind another.
    numbers: Vec<Option<u32>>,
}

impl Model for PackageTable {
    ghost use Rattle.walk.specs.Pages.{IsPaged, PageTable};

    ghost Value = { PageTable };

    ghost view = { λ t. record { pages = t.pages.items; numbers = t.numbers.items } };

    ghost invariant = { λ t. IsPaged t.pages.items t.numbers.items };
}

impl PackageTable {
    /// No package has a number.
    pub fn new(alloc: Global) -> Result<PackageTable, AllocError>
        ensures { IfOk result (λ t. (p : ℕ) → number_at t p ≡ None) }
    {
        let mut numbers = Vec::with_capacity(alloc, FIRST_PAGES * PAGE)?;
        numbers.resize(PAGE, None)?;
        Ok(PackageTable {
            pages: Vec::new(alloc),
            numbers,
        })
    }

    /// The number of a package.
    pub fn get(&self, pkg: Pkg) -> Option<u32>
        ensures { result ≡ number_at self.now pkg }
    {
        let index = pkg as usize;
        let page = self.page_of(index / PAGE);
        self.numbers[PAGE * page + index % PAGE]
    }

    /// Gives a package a number.
    pub fn set(&mut self, pkg: Pkg, number: u32) -> Result<(), AllocError>
        ensures unchanged { OnErr result ((p : ℕ) → number_at self.new p ≡ number_at self.old p) }
        ensures ok { OnOk result ((p : ℕ) → number_at self.new p
            ≡ (if p == pkg then Some number else number_at self.old p)) }
    {
        let index = pkg as usize;
        let page = self.make_page(index / PAGE)?;
        self.numbers[PAGE * page + index % PAGE] = Some(number);
        Ok(())
    }

    /// Gives a package that had a number before this number or none again. Takes no memory.
    pub fn set_back(&mut self, pkg: Pkg, number: Option<u32>)
        ensures { number ≡ None → (p : ℕ) → number_at self.new p
            ≡ (if p == pkg then None else number_at self.old p) }
    {
        let index = pkg as usize;
        let page = self.page_of(index / PAGE);
        if page > 0 {
            self.numbers[PAGE * page + index % PAGE] = number;
        }
    }

    /// Where the page of an index stands.
    fn page_of(&self, index: usize) -> usize
        ensures { result ≡ slice_index self.now.pages index }
    {
        match self.pages.as_slice().get(index) {
            None => 0,
            Some(page) => *page,
        }
    }

    /// Where the page of an index stands, which is made where it isn't. Each package keeps its number.
    fn make_page(&mut self, index: usize) -> Result<usize, AllocError>
        requires { index < 2 ^ 32 }
        ensures same { (p : ℕ) → number_at self.new p ≡ number_at self.old p }
        ensures page { IfOk result (λ page. page ≡ slice_index self.new.pages index) }
        ensures made { IfOk result (λ page. 0 < page) }
    {
        lengthen(&mut self.pages, index + 1)?;
        let page = self.pages[index];
        if page > 0 {
            return Ok(page);
        }
        let made = self.numbers.len() / PAGE;
        self.numbers.resize(self.numbers.len() + PAGE, None)?;
        self.pages[index] = made;
        Ok(made)
    }
}

/// Has at least so many pages. Those that come in stand for no page that is made.
fn lengthen(pages: &mut Vec<usize>, count: usize) -> Result<(), AllocError>
    ensures same { (i : ℕ) → slice_index pages.new.items i ≡ slice_index pages.old.items i }
    ensures long { OnOk result (count ≤ length pages.new.items) }
{
    if count <= pages.len() {
        return Ok(());
    }
    pages.resize(count, 0)
}
