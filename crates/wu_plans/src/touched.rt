//! The workunits of the rows of a file, each as it was found and as the rows so far left it.

ghost use Rattle.std.specs.Prelude.{◌≡◌, ◌≢◌, ◌≤◌, [], IfErr, IfOk, IfSome, OnOk, is_some, map};
ghost use Rattle.std.specs.Option.{option_map_or};
ghost use Rattle.wu_core.specs.declared.fault.Fault.TheVariants.{Memory};
ghost use Rattle.wu_machine.specs.FileRows.{KeepsIdentity, left_by, unknown};
ghost use Rattle.wu_plans.specs.Touched.{AreDistinct, HasAlso, LeavesBy, replaces, touched_named};

use crate::copies::copy_of;
use sqlite::{Alter, Connection};
use std::alloc::Global;
use std::collections::BTreeMap;
use std::marker::Model;
use wu_core::{Fault, ImportKind, Name, Workunit};
use wu_feed::{ReportRow, Rows, SendRow, read_reports, read_sends};
use wu_rules::{ReportVerdict, SendVerdict, report, send};
use wu_store::{Change, class_of};

/// A row of a file on an instance of one workunit.
pub trait FileRow: Drop {
    ghost use Rattle.std.specs.Prelude.{◌≡◌, ◌≢◌, ◌≤◌, ℕ, List, IfErr, Result};
    ghost use Rattle.wu_core.specs.Classes.{AreClassed};
    ghost use Rattle.wu_core.specs.Reads.{IsOrWantsMemory};
    ghost use Rattle.wu_feed.specs.Rows.{IsFileFault};
    ghost use Rattle.wu_core.specs.declared.fault.Fault.{Fault};
    ghost use Rattle.wu_core.specs.declared.workunit.HostClass.{HostClass};
    ghost use Rattle.wu_machine.specs.FileRows.{KeepsIdentity, Rule, unknown};
    ghost use Rattle.wu_machine.specs.Requests.{Request};
    ghost use Rattle.wu_plans.specs.Touched.{IsImportedAs, rule_in};
    ghost use Rattle.wu_store.specs.Reads.{FindsAt, ReadsClassedIf};

    /// What a file of this name and this content asks of the machine.
    ghost asks: { List ℕ → List ℕ → Request };

    /// The rows of a file, or why it has none.
    ghost rows_of: { List ℕ → Result (List Self) Fault };

    /// The class on which the verdict on a row depends, where hosts have these classes.
    ghost class_in: { List HostClass → Self → ℕ };

    /// The verdict on a row, and what it makes of its workunit, where this is that class.
    ghost rule: { ℕ → Rule Self };

    /// Returns the kind of a file of such rows.
    fn kind() -> ImportKind
        // A new file of this kind is read as such rows, and each has the verdict of the rule.
        ensures { IsImportedAs result asks rows_of (rule_in rule class_in) };

    /// Reads the rows of a file.
    fn read(alloc: Global, file: &[u8]) -> Result<Rows<Self>, Fault>
        // The file is read as its rows, or it is out of memory; any other is refused.
        ensures rows { IsOrWantsMemory result (rows_of file.now) }
        // A fault is `Memory`, or `BadFile` with a row and a cause.
        ensures fault { IfErr result IsFileFault };

    /// Returns the name of the row's workunit.
    fn workunit(&self) -> &Name
        // The name is the one that the row has.
        ensures { (class : ℕ) → result.now ≡ (rule class).workunit self.now };

    /// Reads from the tables the class on which the verdict on the row depends.
    fn find_class<S: Alter>(&self, conn: &mut Connection<S>) -> Result<u32, Fault>
        // It only reads, and a fault is `Memory`, `Broken` or `NotAProject`.
        // For a send the class is that of its host in the world; a report needs none, and gets 0.
        // Over a world whose classes can be read, with no limit on steps, no read is refused.
        ensures { ReadsClassedIf S.Store conn.old conn.new result ⊥
            (FindsAt (λ world. class_in world.classes self.now))
            (λ world. AreClassed world.classes) };

    /// Returns the number of the verdict on such a row whose workunit is not present.
    fn unknown() -> u8
        // The number is that of the verdict `unknown`.
        ensures { result ≡ unknown };

    /// Applies the row to its workunit, or skips it: the number of the verdict, 0 where it was applied.
    fn apply(self, class: u32, workunit: &mut Workunit) -> u8
        // The verdict is that of the row's definition on the workunit, with this class.
        ensures verdict { result ≡ (rule class).verdict self workunit.old }
        // The number of the verdict is one digit.
        ensures digit { result ≤ 9 }
        // An applied row makes the definition's image of the workunit.
        ensures applied { result ≡ 0 → workunit.new ≡ (rule class).image self workunit.old }
        // A skipped row leaves the workunit as it was.
        ensures skipped { result ≢ 0 → workunit.new ≡ workunit.old }
        // The workunit keeps its number and its name.
        ensures keeps { KeepsIdentity workunit.old workunit.new };
}

impl FileRow for SendRow {
    ghost use Rattle.wu_feed.specs.Sends.{sends_of_file};
    ghost use Rattle.wu_machine.specs.Requests.{AskSent};
    ghost use Rattle.wu_plans.specs.Touched.{send_class, send_rule_at};

    ghost asks = { AskSent };

    ghost rows_of = { sends_of_file };

    ghost class_in = { send_class };

    ghost rule = { send_rule_at };

    fn kind() -> ImportKind {
        ImportKind::Sent
    }

    fn read(alloc: Global, file: &[u8]) -> Result<Rows<Self>, Fault> {
        read_sends(alloc, file)
    }

    fn workunit(&self) -> &Name {
        &self.workunit
    }

    fn find_class<S: Alter>(&self, conn: &mut Connection<S>) -> Result<u32, Fault> {
        class_of(conn, &self.host)
    }

    fn unknown() -> u8 {
        SendVerdict::Unknown.code()
    }

    fn apply(self, class: u32, workunit: &mut Workunit) -> u8 {
        send(workunit, self.n, self.host, class, self.moment).code()
    }
}

impl FileRow for ReportRow {
    ghost use Rattle.wu_feed.specs.Reports.{reports_of_file};
    ghost use Rattle.wu_machine.specs.Requests.{AskReported};
    ghost use Rattle.wu_plans.specs.Touched.{no_class, report_rule_at};

    ghost asks = { AskReported };

    ghost rows_of = { reports_of_file };

    ghost class_in = { no_class };

    ghost rule = { report_rule_at };

    fn kind() -> ImportKind {
        ImportKind::Reported
    }

    fn read(alloc: Global, file: &[u8]) -> Result<Rows<Self>, Fault> {
        read_reports(alloc, file)
    }

    fn workunit(&self) -> &Name {
        &self.workunit
    }

    fn find_class<S: Alter>(&self, _conn: &mut Connection<S>) -> Result<u32, Fault> {
        Ok(0)
    }

    fn unknown() -> u8 {
        ReportVerdict::Unknown.code()
    }

    fn apply(self, _class: u32, workunit: &mut Workunit) -> u8 {
        let ReportRow {
            workunit: _,
            n,
            host,
            moment,
            status,
            output,
        } = self;
        report(workunit, n, &host, moment, status, output).code()
    }
}

/// A workunit that rows name: as it was found, and as they left it.
#[derive(Drop)]
pub struct Touch {
    pub was: Workunit,
    pub now: Workunit,
}

/// The workunits that the rows so far name. Each is found by its name.
#[derive(Drop)]
pub struct Touched {
    by_name: BTreeMap<String, Touch>,
}

impl Model for Touched {
    ghost use Rattle.std.specs.Prelude.{List};
    ghost use Rattle.std.specs.List.{AllByRecursion};
    ghost use Rattle.std.specs.BTreeMap.{values};
    ghost use Rattle.wu_plans.specs.declared.touched.Touch.{Touch};
    ghost use Rattle.wu_plans.specs.Touched.{IsUnderItsName};

    ghost Value = { List Touch };

    ghost view = { λ touched. values touched.by_name };

    ghost invariant = { λ touched. AllByRecursion IsUnderItsName touched.by_name.entries };
}

impl Touched {
    /// Makes an empty list: no row so far.
    pub fn new(alloc: Global) -> Self
        // No workunit is among them.
        ensures { result ≡ [] }
    {
        Touched {
            by_name: BTreeMap::new(alloc),
        }
    }

    /// Returns whether the workunit of this name is among them.
    pub fn has(&self, name: &Name) -> bool
        // The answer is whether the workunit of this name is among them.
        ensures { result ≡ is_some (touched_named self.now name.now) }
    {
        self.by_name.contains_key(name.as_str())
    }

    /// Adds a workunit, as it was found.
    pub fn insert(&mut self, alloc: Global, workunit: Workunit) -> Result<(), Fault>
        // With Ok the workunit is among them as it was found, and each of another name is as
        // before.
        ensures also { OnOk result (HasAlso workunit self.old self.new) }
        // The only fault is `Memory`.
        ensures fault { IfErr result (λ fault. fault ≡ Memory) }
    {
        let name = String::from_str(alloc, workunit.name.as_str())?;
        let was = copy_of(alloc, &workunit)?;
        let touch = Touch { was, now: workunit };
        self.by_name.insert(name, touch)?;
        Ok(())
    }

    /// Applies a row to its workunit, or skips it, where this is the class on which its verdict depends. Returns the
    /// number of the verdict: `unknown` where its workunit is not among these.
    pub fn apply<R: FileRow>(&mut self, row: R, class: u32) -> u8
        // The verdict is that of the row on its workunit as the rows before left it, or `unknown`
        // where that is not present.
        ensures verdict { result ≡ option_map_or (λ touch. (R.rule class).verdict row touch.now)
            (touched_named self.old ((R.rule class).workunit row)) unknown }
        // The number of the verdict is one digit.
        ensures digit { result ≤ 9 }
        // An applied row changes its workunit alone, and a skipped one nothing.
        ensures left { LeavesBy (R.rule class) row result self.old self.new }
        // The row's workunit keeps its number and its name.
        ensures keeps { IfSome (touched_named self.old ((R.rule class).workunit row))
            (λ touch. KeepsIdentity touch.now (left_by (R.rule class) row result touch.now)) }
    {
        let Some(touch) = self.by_name.get_mut(row.workunit().as_str()) else {
            return R::unknown();
        };
        row.apply(class, &mut touch.now)
    }

    /// Returns the changes that put each in the place of the present workunit of its number.
    pub fn into_changes<'a>(self, alloc: Global) -> Result<Vec<Change<'a>>, Fault>
        // No two of them have the same name.
        ensures distinct { AreDistinct self }
        // With Ok there is one change for each, from the workunit as it was found to what the rows
        // left.
        ensures changes { IfOk result (λ changes. changes.items ≡ map replaces self) }
        // The only fault is `Memory`.
        ensures fault { IfErr result (λ fault. fault ≡ Memory) }
    {
        let mut changes = Vec::new(alloc);
        for (_, touch) in self.by_name {
            let Touch { was, now } = touch;
            changes.push(Change::Replace(was, now))?;
        }
        Ok(changes)
    }
}
