//! The answer to a line.

use crate::machines::events::events;
use crate::machines::fault::CaseFault;
use crate::machines::jobs::{MOST_NUMBER, jobs, number};
use crate::machines::player::Player;
use std::alloc::Global;
use vcode_base::limits::MOST_WORDS;

/// The answer to a line; a line `machine` or `another` makes another player.
pub fn answer(alloc: Global, player: &mut Option<Player>, line: &str) -> Result<String, CaseFault> {
    let (word, text) = line.split_once(' ').unwrap_or((line, ""));
    if matches!(word, "machine" | "another") {
        let mut made = machine(alloc, text)?;
        let jobs = made.machine.jobs();
        if word == "another" {
            made.take_tickets(player);
        }
        *player = Some(made);
        return Ok(format!(in alloc; "{jobs} jobs")?);
    }
    let player = player.as_mut().ok_or(CaseFault::NoCall)?;
    match text {
        "" => lone_call(alloc, player, word),
        _ => call(alloc, player, word, text),
    }
}

/// A player over the machine that `REGION CODE BUDGET WORDS ..` names.
fn machine(alloc: Global, text: &str) -> Result<Player, CaseFault> {
    let (region, text) = text.split_once(' ').ok_or(CaseFault::NoCall)?;
    let region = number(region, MOST_WORDS)?;
    if region == 0 {
        return Err(CaseFault::NoCall);
    }
    let jobs = jobs(alloc, text, region)?;
    Player::new(alloc, region, jobs)
}

/// A call without arguments.
fn lone_call(alloc: Global, player: &mut Player, word: &str) -> Result<String, CaseFault> {
    match word {
        "admit" => Ok(format!(in alloc; "{:?}", player.machine.admit())?),
        "used" => Ok(format!(in alloc; "{}", player.machine.used())?),
        "jobs" => Ok(format!(in alloc; "{}", player.machine.jobs())?),
        "list" => Ok(format!(in alloc; "{}", player.holds_its_list()?)?),
        "run_out" => Ok(format!(in alloc; "{}", player.run_out(alloc)?)?),
        _ => Err(CaseFault::NoCall),
    }
}

/// A call with arguments.
fn call(alloc: Global, player: &mut Player, word: &str, text: &str) -> Result<String, CaseFault> {
    match word {
        "holds" => {
            let jobs = jobs(alloc, text, MOST_WORDS)?;
            Ok(format!(in alloc; "{}", player.machine.holds(&jobs))?)
        }
        "replay" => {
            let played = player.machine.replay(alloc, &events(alloc, text)?);
            Ok(format!(in alloc; "{played:?}")?)
        }
        "begin" | "step" => {
            let (job, words) = text.split_once(' ').ok_or(CaseFault::NoCall)?;
            let job = number(job, MOST_NUMBER)?;
            let words = number(words, MOST_WORDS)?;
            let answer = match word {
                "begin" => player.begin(alloc, job, words)?,
                _ => player.step(alloc, job, words)?,
            };
            Ok(String::from_str(alloc, answer)?)
        }
        _ => numbered_call(alloc, player, word, number(text, MOST_NUMBER)?),
    }
}

/// A call whose argument is the number of a job or of a ticket.
fn numbered_call(
    alloc: Global,
    player: &mut Player,
    word: &str,
    n: usize,
) -> Result<String, CaseFault> {
    let machine = &mut player.machine;
    match word {
        "finish" => Ok(format!(in alloc; "{:?}", player.finish(n)?)?),
        "recall" => Ok(format!(in alloc; "{}", machine.recall(n))?),
        "collect" => Ok(format!(in alloc; "{}", machine.collect(n)?)?),
        "status" => Ok(format!(in alloc; "{:?}", machine.status(n))?),
        "executed" => Ok(format!(in alloc; "{:?}", machine.executed(n))?),
        "peak" => Ok(format!(in alloc; "{:?}", machine.peak(n))?),
        "passed" => Ok(format!(in alloc; "{:?}", machine.passed(n))?),
        "outcome" => Ok(String::from_str(alloc, player.outcome(n))?),
        _ => Err(CaseFault::NoCall),
    }
}
