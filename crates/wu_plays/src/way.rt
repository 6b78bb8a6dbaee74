//! The drivers of scenarios.

use crate::course::Between;
use crate::{driven, lives, memory, outputs, session_outputs, shown, stops, tables, upgrades};
use anyhow::{Result, bail};
use std::alloc::Global;
use wu_play_files::Pages;

/// A driver: how a script runs.
#[derive(Drop)]
pub enum Way {
    /// Over a database in memory, each line a command of its own.
    Memory,
    /// Likewise, except that some lines are statements over the tables.
    Tables,
    /// Over two files that fail after each number of calls: how an act leaves them, how many pages stay in memory, and
    /// the database file that the script begins with.
    Stops(Between, Pages, Option<String>),
    /// Over two files that fail after each number of calls, all lines in one session: how many pages stay in memory.
    SessionStops(Pages),
    /// Over two files, with a crash at the commands of these numbers, counted from 1.
    Lives(Vec<usize>),
    /// Into writers that fail after each number of bytes, and at each flush.
    Outputs,
    /// All lines in one session, into writers that fail after each number of bytes.
    SessionOutputs,
    /// The view of the last line, into writers that take a few bytes a call and fail after each number of bytes.
    Shown,
    /// The lines from this number on as one list, into a writer with room for this number of bytes.
    Driven(u64, usize),
    /// By the function that upgrades a project without a session, each line a database.
    Upgrades,
}

/// Returns the numbers that the words write.
fn numbers<'a>(alloc: Global, words: &[&'a str]) -> Result<Vec<usize>> {
    let mut numbers = Vec::new(alloc);
    for word in words {
        numbers.push(word.parse::<usize>()?)?;
    }
    Ok(numbers)
}

/// Returns the driver of the words after a script: the first line that runs as part of the list, and the writer's room
/// in bytes.
fn driven<'a>(words: &[&'a str]) -> Result<Way> {
    let [first, room] = words else {
        bail!("the number of a line and of bytes");
    };
    Ok(Way::Driven(first.parse()?, room.parse()?))
}

/// Returns the file that the first word names; `None` without a word.
fn file<'a>(alloc: Global, words: &[&'a str]) -> Result<Option<String>> {
    match words {
        [path, ..] => Ok(Some(String::from_str(alloc, path)?)),
        [] => Ok(None),
    }
}

impl Way {
    /// Returns the driver of this name, with the words that follow the script's path.
    pub fn read<'a>(alloc: Global, name: &str, rest: &[&'a str]) -> Result<Way> {
        let way = match name {
            "memory" => Way::Memory,
            "tables" => Way::Tables,
            "stops" => Way::Stops(Between::Closed, Pages::All, file(alloc, rest)?),
            "few_pages" => Way::Stops(Between::Closed, Pages::Few, None),
            "unclosed" => Way::Stops(Between::Unclosed, Pages::All, None),
            "session_stops" => Way::SessionStops(Pages::All),
            "session_few_pages" => Way::SessionStops(Pages::Few),
            "lives" => Way::Lives(numbers(alloc, rest)?),
            "outputs" => Way::Outputs,
            "session_outputs" => Way::SessionOutputs,
            "shown" => Way::Shown,
            "driven" => driven(rest)?,
            "upgrades" => Way::Upgrades,
            _ => bail!("no way to play"),
        };
        Ok(way)
    }

    /// Runs a script, and writes its transcript.
    pub fn play(&self, rt: &HostRuntime, text: &str, transcript: &mut Vec<u8>) -> Result<()> {
        match self {
            Way::Memory => memory::play(rt, text, transcript),
            Way::Tables => tables::play(rt, text, transcript),
            Way::Stops(between, pages, path) => stops::play(
                rt,
                text,
                path.as_deref(),
                *between,
                *pages,
                transcript,
            ),
            Way::SessionStops(pages) => stops::play_session(rt, text, *pages, transcript),
            Way::Lives(numbers) => lives::play(rt, text, numbers.as_slice(), transcript),
            Way::Outputs => outputs::play(rt, text, transcript),
            Way::SessionOutputs => session_outputs::play(rt, text, transcript),
            Way::Shown => shown::play(rt, text, transcript),
            Way::Driven(first, room) => driven::play(rt, text, *first, *room, transcript),
            Way::Upgrades => upgrades::play(rt, text, transcript),
        }
    }
}
