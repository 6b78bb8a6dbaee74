//! The words that are explained, each with its topic.

/// The words in lower case, a line each for what they are, the words, and the topic that explains them. Of the lines that
/// have a word the first explains it where it stands alone: `class` is why a row was skipped before it is a column.
///
/// `number` and `fault` are the two names of a fault, and the name of F17 alone is a cause of F3. An `option` is of a pass. What is printed is found
/// by its first word. A `report` is of a check, a backup or outputs, and an `answer` of a command. A `reading` is of a
/// lint, and a `usage` of a command line. After `cannot` and `unknown` stands what could not be done or is invalid.
pub const INDEX: &str = "view: workunits -> view workunits
view: results -> view results
view: hosts -> view hosts
view: archive -> view archive
view: summary -> view summary
view: classes -> view classes
fault: badname -> F1
fault: badtemplate -> F2
fault: badfile -> F3
fault: nameused -> F4
fault: workunitused -> F5
fault: toomany -> F6
fault: badmoment -> F7
fault: badlimit -> F8
fault: unknownworkunit -> F9
fault: notopentocancel -> F10
fault: oldschema -> F11
fault: newschema -> F12
fault: notaproject -> F13
fault: memory -> F14
fault: broken -> F15
fault: ended -> F16
file: jobs -> file jobs
file: sends -> file sends
file: reports -> file reports
file: classes -> file classes
file: template -> template
subject: causes -> causes
subject: skips -> skips
subject: template -> template
subject: names -> names
subject: moments -> moments
subject: imports -> imports
subject: passes -> passes
subject: mask -> mask
subject: waits -> waits
subject: scripts -> scripts
subject: cancels cancel -> cancels
subject: checks -> checks
subject: openings -> openings
subject: backups -> backups
subject: lint -> lint
subject: outputs -> outputs
subject: status -> status
subject: view views -> view
subject: upgrade -> upgrade
skip: unknown not_unsent same_host class not_sent wrong_host before_sent over -> skips
cause: unreadable too_long header too_many_rows fields name input result host moment output -> F3
key: document -> F2
key: min_quorum target_nresults delay_bound credit max_error_results max_total_results -> template
key: max_success_results -> template
option: limit --limit min-age min_age --min-age -> passes
subcommand: batch -> file jobs
subcommand: sent -> file sends
subcommand: reported -> file reports
subcommand: transition validate assimilate delete purge cycle -> passes
subcommand: script session repeat try -> scripts
subcommand: check -> checks
subcommand: backup -> backups
state: unsent in_progress success client_error no_reply didnt_need validate_error -> view results
state: client_detached valid invalid no_check inconclusive too_late over -> view results
state: init ready done -> view workunits
column: mask -> mask
column: input quorum target max_error max_total max_success delay credit -> view workunits
column: canonical assimilate delete done class -> view workunits
column: host sent deadline received output -> view results
column: total grants -> view hosts
column: rows applied skipped first -> imports
column: made there -> outputs
column: undecided given_up overdue next_deadline -> waits
count: version next workunits results unsent in_progress over -> view summary
count: archived grants credit imports classes -> view summary
count: transition validate assimilate delete purge -> waits
count: undecided given_up overdue next_deadline -> waits
report: ok table there version queue project workunit result credit_grant host -> checks
report: archived import host_class workunit_class -> checks
report: backup -> backups
report: outputs -> outputs
report: only -> scripts
answer: batch sent reported classes came -> imports
answer: transition: validate: assimilate: delete: purge: -> passes
answer: cancel -> cancels
answer: upgrade: -> upgrade
reading: in found: wanted: wanted -> lint
usage: error: usage: tip: -> status 2
cannot: open -> openings
cannot: make -> backups
cannot: write -> outputs
unknown: view -> view
unknown: kind: -> lint
number: f1 -> F1
number: f2 -> F2
number: f3 -> F3
number: f4 -> F4
number: f5 -> F5
number: f6 -> F6
number: f7 -> F7
number: f8 -> F8
number: f9 -> F9
number: f10 -> F10
number: f11 -> F11
number: f12 -> F12
number: f13 -> F13
number: f14 -> F14
number: f15 -> F15
number: f16 -> F16
number: f17 -> F17
status: 0 -> status 0
status: 1 -> status 1
status: 2 -> status 2
status: 3 -> status 3
status: 4 -> status 4
status: 5 -> status 5";

/// What lines begin with that the program prints, in lower case, a line each for the first words and the topic that explains
/// them. Of the lines that fit the first counts.
pub const BEGINNINGS: &str = "its name -> openings
its log -> openings
its file -> openings
it is -> openings
it has -> openings
something else -> openings
the disk -> openings
the file -> openings
there is no such -> openings
a check names -> openings
a quote -> scripts
line too -> scripts
after a -> scripts
a script is -> scripts
a session is -> scripts
a check is -> scripts
a backup cannot -> scripts
a lint is -> scripts
an explanation is -> scripts
help is -> scripts
outputs cannot -> scripts
lintelthyme: opening -> openings
lintelthyme: -> scripts
= ready -> scripts
the words -> status 2
a value -> status 2
for more -> status 2
out of -> F14";

/// A line of the index.
#[derive(Clone, Copy)]
pub struct Entry {
    pub kind: &'static str,
    pub words: &'static str,
    pub topic: &'static str,
}

impl Entry {
    /// Reads a line of the index; `None` if it has another form.
    pub fn of_line(line: &'static str) -> Option<Entry> {
        let (kind, rest) = line.split_once(": ")?;
        let (words, topic) = rest.split_once(" -> ")?;
        Some(Entry { kind, words, topic })
    }

    /// Returns whether this is one of the words.
    fn has(&self, word: &str) -> bool {
        self.words.split(' ').any(|name| name == word)
    }
}

/// Returns the topic of a word of this kind; `None` if it is none of that kind.
pub fn topic_of(kind: &str, word: &str) -> Option<&'static str> {
    for line in INDEX.lines() {
        if let Some(entry) = Entry::of_line(line)
            && entry.kind == kind
            && entry.has(word)
        {
            return Some(entry.topic);
        }
    }
    None
}

/// Returns the topic of a word that stands alone, of whatever kind it is first; `None` if the index lacks it.
pub fn topic_of_any(word: &str) -> Option<&'static str> {
    for line in INDEX.lines() {
        if let Some(entry) = Entry::of_line(line)
            && entry.has(word)
        {
            return Some(entry.topic);
        }
    }
    None
}

/// Returns whether words begin with these, which are at most four.
fn begin_with(words: &[&str; 4], beginning: &str) -> bool {
    beginning
        .split(' ')
        .zip(words.iter())
        .all(|(wanted, word)| wanted == *word)
}

/// Returns the topic of a line by its first four words, each empty where there is none; `None` if it begins with none of
/// `BEGINNINGS`.
pub fn topic_of_beginning(words: &[&str; 4]) -> Option<&'static str> {
    for line in BEGINNINGS.lines() {
        if let Some((beginning, topic)) = line.split_once(" -> ")
            && begin_with(words, beginning)
        {
            return Some(topic);
        }
    }
    None
}
