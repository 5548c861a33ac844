//! Jobs, as a line names them.

ghost use Rattle.std.specs.Prelude.{◌≤◌, length, All, IfOk, OnOk};
ghost use Rattle.vcode_base.specs.declared.limits.TheConstants.{MOST_BUDGET, MOST_JOBS, MOST_WORDS};

use crate::machines::fault::CaseFault;
use job_machine::{Job, JobName};
use std::alloc::{AllocError, Global};
use vcode_base::Limits;
use vcode_base::laws::line_feeds_are_few;
use vcode_base::limits::{MOST_BUDGET, MOST_JOBS, MOST_WORDS};
use verifier::{Verified, verify};

/// The most that a number of a job or of a ticket may be.
pub const MOST_NUMBER: usize = 1000;

/// The number that a word is, if it is at most `most`.
pub fn number(word: &str, most: usize) -> Result<usize, CaseFault>
    ensures { IfOk result (λ n. n ≤ most) }
{
    match word.parse::<usize>() {
        Ok(n) if n <= most => Ok(n),
        _ => Err(CaseFault::NoCall),
    }
}

/// The signatures and the code that a word names.
fn texts(code: &str) -> Result<(&'static [u8], &'static [u8]), CaseFault> {
    match code {
        "nothing" => Ok((b"MAIN () -> ()\n", b"FUNC MAIN\nRET\n")),
        "seven" => Ok((b"MAIN () -> (INT)\n", b"FUNC MAIN\nCONST INT 7\nRET\n")),
        "eight" => Ok((b"MAIN () -> (INT)\n", b"FUNC MAIN\nCONST INT 8\nRET\n")),
        "spread" => Ok((
            b"MAIN () -> (INT)\n",
            b"FUNC MAIN\nCONST INT 7\nCONST INT 4294967295\nMAKE_SEGDES\nDIST INT\nRET\n",
        )),
        "divide" => Ok((
            b"MAIN () -> (INT)\n",
            b"FUNC MAIN\nCONST INT 7\nCONST INT 0\n/ INT\nRET\n",
        )),
        _ => Err(CaseFault::NoCall),
    }
}

/// The code that a word names, verified.
fn verified(alloc: Global, code: &str) -> Result<Verified<Global>, CaseFault> {
    let (known, code) = texts(code)?;
    line_feeds_are_few();
    if known.len() > 100 || code.len() > 100 {
        return Err(CaseFault::NoCall);
    }
    let Ok(known) = signatures::read(alloc, known, 3) else {
        return Err(CaseFault::NoCall);
    };
    let Ok(program) = vcode_reader::read(alloc, code, 5) else {
        return Err(CaseFault::NoCall);
    };
    verify(alloc, program, &known).map_err(|_| CaseFault::NoCall)
}

/// A job of this code, budget and words.
fn job(alloc: Global, code: &str, budget: u64, words: usize) -> Result<Job<Global>, CaseFault>
    requires budget { budget ≤ MOST_BUDGET }
    requires words { words ≤ MOST_WORDS }
    ensures { IfOk result (λ job. job.limits.words ≤ words) }
{
    let limits = Limits {
        words,
        cells: 16,
        calls: 4,
        budget,
    };
    let name = JobName::from_vec(b"t".to_vec(alloc)?);
    Ok(Job::new(name, verified(alloc, code)?, limits))
}

/// Adds a job of this code and budget, and of the words that a word names, after the others.
fn put_job(
    alloc: Global,
    jobs: &mut Vec<Job<Global>>,
    code: &str,
    budget: u64,
    word: &str,
    most: usize,
) -> Result<(), CaseFault>
    requires budget { budget ≤ MOST_BUDGET }
    requires most { most ≤ MOST_WORDS }
    requires few { length jobs.old.items ≤ MOST_JOBS }
    requires words { All (λ job. job.limits.words ≤ most) jobs.old.items }
    ensures few { OnOk result (length jobs.new.items ≤ MOST_JOBS) }
    ensures words { OnOk result (All (λ job. job.limits.words ≤ most) jobs.new.items) }
{
    if jobs.len() == MOST_JOBS {
        return Err(CaseFault::NoCall);
    }
    let words = number(word, most)?;
    let job = job(alloc, code, budget, words)?;
    jobs.push(job).map_err(AllocError::from)?;
    Ok(())
}

/// The jobs that `CODE BUDGET WORDS ..` names, each of at most `most` words.
pub fn jobs(alloc: Global, text: &str, most: usize) -> Result<Vec<Job<Global>>, CaseFault>
    requires { most ≤ MOST_WORDS }
    ensures few { IfOk result (λ jobs. length jobs.items ≤ MOST_JOBS) }
    ensures words { IfOk result (λ jobs. All (λ job. job.limits.words ≤ most) jobs.items) }
{
    let (code, text) = text.split_once(' ').ok_or(CaseFault::NoCall)?;
    let (budget, text) = text.split_once(' ').ok_or(CaseFault::NoCall)?;
    let budget = number(budget, MOST_BUDGET as usize)? as u64;
    let mut jobs = Vec::new(alloc);
    for word in text.split(' ') {
        put_job(alloc, &mut jobs, code, budget, word, most)?;
    }
    Ok(jobs)
}
