//! A scenario: a script, and its driver.

use crate::{laws, words};
use anyhow::{Context, Result, bail};
use std::alloc::Global;
use std::fs;
use wu_plays::Way;

/// How the script of a scenario runs.
#[derive(Drop)]
enum Means {
    /// Over files of the current folder, each line a whole command line.
    Words,
    /// By the functions of `wu_stops` and `wu_lives`, each line a batch that is a session of its own.
    Laws,
    Way(Way),
}

/// A line of the list of scenarios.
#[derive(Drop)]
pub struct Play<'a> {
    means: Means,
    /// Where the script lies.
    script: &'a str,
}

impl<'a> Play<'a> {
    /// Reads a line of the list: the driver, the path of the script, and the words that the driver takes.
    pub fn read(alloc: Global, line: &'a str) -> Result<Play<'a>> {
        let words: Vec<&str> = line.split(' ').collect(alloc)?;
        let [name, script, rest @ ..] = words.as_slice() else {
            bail!("a play has a way and a script");
        };
        let means = match *name {
            "words" => Means::Words,
            "laws" => Means::Laws,
            name => Means::Way(Way::read(alloc, name, rest)?),
        };
        Ok(Play {
            means,
            script: *script,
        })
    }

    /// Runs the script, and writes its transcript.
    pub fn run(&self, rt: &HostRuntime, transcript: &mut Vec<u8>) -> Result<()> {
        let text = fs::read_to_string(rt, self.script).context(self.script)?;
        let text = text.as_str();
        match &self.means {
            Means::Words => words::play(rt, text, transcript),
            Means::Laws => laws::play(rt, text, transcript),
            Means::Way(way) => way.play(rt, text, transcript),
        }
    }
}
