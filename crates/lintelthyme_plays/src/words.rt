//! Scenarios of whole command lines over files of the current folder, by the function that the program calls.

use anyhow::{Context, Result, bail};
use sqlite_disk::Wary;
use std::fs;
use std::io::Write;
use wu_feed::{LineCause, Words, read_script};
use wu_plays::{write_comment, write_status};
use wu_process::run_with;

/// Returns the words of a process: the program's name, and those of a line.
fn process_words(rt: &HostRuntime, words: Result<Words, LineCause>) -> Result<Vec<String>> {
    let Ok(words) = words else {
        bail!("a line has no words");
    };
    let mut words = words.into_vec();
    words.insert(0, String::from_str(rt.alloc(), "lintelthyme")?)?;
    Ok(words)
}

/// Takes a line apart: the words of the program, and what its standard input holds, which is the file after ` < `.
fn with_input<'a>(rt: &HostRuntime, line: &'a str) -> Result<(&'a str, Vec<u8>)> {
    match line.split_once(" < ") {
        Some((words, path)) => Ok((words, fs::read(rt, path).context("an input")?)),
        None => Ok((line, Vec::new(rt.alloc()))),
    }
}

/// Runs the program with these words and this input. Writes what it prints, what it reports of a fault, and its status.
fn run(rt: &HostRuntime, words: Vec<String>, input: &[u8], transcript: &mut Vec<u8>) -> Result<()> {
    let mut told = Vec::new(rt.alloc());
    let mut input = input;
    let status = run_with(rt, Ok(words), &mut input, Wary, transcript, &mut told).status;
    transcript.write_all(told.as_slice())?;
    write_status(status, transcript)?;
    Ok(())
}

/// Runs a line of the script, and writes it with its answer.
fn play_line(rt: &HostRuntime, line: &str, transcript: &mut Vec<u8>) -> Result<()> {
    write_comment(line, transcript)?;
    let (text, input) = with_input(rt, line)?;
    for line_of_words in read_script(rt.alloc(), text.as_bytes())?.into_vec() {
        writeln!(transcript, "> {line}")?;
        let words = process_words(rt, line_of_words.words)?;
        run(rt, words, input.as_slice(), transcript)?;
    }
    Ok(())
}

/// Runs a scenario.
pub fn play(rt: &HostRuntime, text: &str, transcript: &mut Vec<u8>) -> Result<()> {
    for line in text.lines() {
        play_line(rt, line, transcript)?;
    }
    Ok(())
}
