//! The functions of a run that run inside one another.

use crate::tally::Count;
use job_profile::Run;
use std::alloc::{AllocError, Global};

/// The most chains of functions. Those that would begin one more count in the rest of the chain that called them.
const MOST_CHAINS: usize = 4_096;

/// A chain of functions that run inside one another. Its outer chain is the chain without its innermost function. The
/// chain of `MAIN` alone is its own outer chain.
///
/// The rest of a chain has the number of functions in place of a function. It stands for all functions that ran in that
/// chain and have no chain of their own.
#[derive(Clone, Copy, Drop)]
pub struct Chain {
    /// The place of its outer chain.
    pub outer: usize,
    /// Its innermost function, counted from 0 in the order of the code.
    pub function: usize,
    /// How often that function was called in the outer chain.
    pub calls: u64,
    /// What that function executed itself in the chain.
    pub count: Count,
}

/// The chains of a run, that of `MAIN` alone first; the chain of the innermost call; and those of the other active
/// calls, that of `MAIN` first.
///
/// Each chain has a row, which has for each function the chain in which it goes on if it is called there: for one that
/// runs in the chain already the chain up to it, and for one that was called from the chain the chain with it. So a
/// call takes one look, however deep it is. The last of the row is the rest of the chain. Each chain comes after its
/// outer chain. So in a row the chains of functions that run already are those up to the row's own chain, and those of
/// others come after it.
#[derive(Drop)]
pub struct Chains {
    alloc: Global,
    chains: Vec<Chain>,
    innermost: usize,
    callers: Vec<usize>,
    functions: usize,
    rows: Vec<Option<u16>>,
}

/// The function of the innermost call.
#[inline(always)]
pub fn innermost(run: &Run<Global>) -> usize {
    match run.frames().last() {
        Some(frame) => frame.function,
        None => 0,
    }
}

impl Chains {
    /// The chains of a run that has executed nothing.
    ///
    /// # Errors
    ///
    /// [`AllocError`] if memory was refused.
    pub fn new(alloc: Global, run: &Run<Global>) -> Result<Chains, AllocError> {
        let functions = run.job().verified().program().functions().len();
        let mut chains = Chains {
            alloc,
            chains: Vec::new(alloc),
            innermost: 0,
            callers: Vec::new(alloc),
            functions,
            rows: vec![in alloc; None; functions.saturating_add(1)]?,
        };
        let main = chains.push_chain(0, innermost(run))?;
        chains.enter(main);
        Ok(chains)
    }

    /// The chains. Each comes after its outer chain.
    pub fn chains(&self) -> &[Chain] {
        self.chains.as_slice()
    }

    /// The place of the chain of the innermost call.
    #[inline(always)]
    pub fn place(&self) -> usize {
        self.innermost
    }

    /// The index of a function in the row of the chain at a place.
    #[inline(always)]
    fn index(&self, place: usize, function: usize) -> usize {
        place
            .wrapping_mul(self.functions.wrapping_add(1))
            .wrapping_add(function)
    }

    /// The place of the chain in which a function goes on that is called in the chain at a place, if it is known.
    #[inline(always)]
    fn known(&self, place: usize, function: usize) -> Option<usize> {
        match self.rows.get(self.index(place, function)) {
            Some(Some(known)) => Some(usize::from(*known)),
            Some(None) | None => None,
        }
    }

    /// Notes that a function that is called in the chain at a place goes on in the chain at another.
    fn note(&mut self, place: usize, function: usize, known: usize) {
        let index = self.index(place, function);
        if let (Some(entry), Ok(known)) = (self.rows.get_mut(index), u16::try_from(known)) {
            *entry = Some(known);
        }
    }

    /// Adds a row of a chain inside the chain at a place: the functions that run in it.
    fn push_row(&mut self, outer: usize) -> Result<(), AllocError> {
        let (begin, end) = (self.index(outer, 0), self.index(outer.saturating_add(1), 0));
        let row = self.rows.get(begin..end).unwrap_or(&[]);
        let mut row = row.to_vec(self.alloc)?;
        for entry in row.iter_mut() {
            if matches!(*entry, Some(known) if usize::from(known) > outer) {
                *entry = None;
            }
        }
        self.rows.extend_from_slice(&row)
    }

    /// Adds the chain of a function inside the chain at a place, for which there is a row. Answers its place.
    fn push_chain(&mut self, outer: usize, function: usize) -> Result<usize, AllocError> {
        let place = self.chains.len();
        self.chains.push(Chain {
            outer,
            function,
            calls: 0,
            count: Count::NONE,
        })?;
        self.note(place, function, place);
        self.note(outer, function, place);
        Ok(place)
    }

    /// Adds the chain of a function inside the chain at a place. Answers its place.
    fn push(&mut self, outer: usize, function: usize) -> Result<usize, AllocError> {
        self.push_row(outer)?;
        self.push_chain(outer, function)
    }

    /// The place of the chain of a function inside the chain at a place, which isn't known yet. If there are too many
    /// chains, it is the rest.
    #[inline(never)]
    fn unknown(&mut self, outer: usize, function: usize) -> Result<usize, AllocError> {
        if self.chains.len() < MOST_CHAINS {
            return self.push(outer, function);
        }
        match self.known(outer, self.functions) {
            Some(place) => Ok(place),
            None => self.push(outer, self.functions),
        }
    }

    /// The place of the chain of a function that is called in the chain at a place. One that runs already goes on in
    /// its chain, so that a recursion is one chain.
    #[inline(always)]
    fn inner(&mut self, outer: usize, function: usize) -> Result<usize, AllocError> {
        match self.known(outer, function) {
            Some(place) => Ok(place),
            None => self.unknown(outer, function),
        }
    }

    /// Counts a call in the chain at a place, which is the innermost then.
    #[inline(always)]
    fn enter(&mut self, place: usize) {
        if let Some(chain) = self.chains.get_mut(place) {
            chain.calls = chain.calls.wrapping_add(1);
        }
        self.innermost = place;
    }

    /// Counts a call of a function that begins.
    ///
    /// # Errors
    ///
    /// [`AllocError`] if memory was refused. The chains aren't those of the run then.
    #[inline(always)]
    pub fn call(&mut self, function: usize) -> Result<(), AllocError> {
        let outer = self.innermost;
        let place = self.inner(outer, function)?;
        self.callers.push(outer)?;
        self.enter(place);
        Ok(())
    }

    /// Counts the end of a call.
    #[inline(always)]
    pub fn leave(&mut self) {
        if let Some(place) = self.callers.pop() {
            self.innermost = place;
        }
    }

    /// Counts what the innermost call has executed itself. Answers whether the chain has its function: a rest hasn't.
    #[inline(always)]
    pub fn count(&mut self, own: Count) -> bool {
        match self.chains.get_mut(self.innermost) {
            Some(chain) => {
                chain.count.join(own);
                chain.function < self.functions
            }
            None => false,
        }
    }

    /// The places of the chain at a place and of the chains around it, that of `MAIN` last.
    ///
    /// # Errors
    ///
    /// [`AllocError`] if memory was refused.
    pub fn path(&self, alloc: Global, place: usize) -> Result<Vec<usize>, AllocError> {
        let mut path = Vec::new(alloc);
        let mut place = place;
        for _ in 0..self.chains.len() {
            let Some(chain) = self.chains.get(place) else {
                break;
            };
            path.push(place)?;
            if place == 0 {
                break;
            }
            place = chain.outer;
        }
        Ok(path)
    }
}
