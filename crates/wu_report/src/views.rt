//! The views of a project, as text.

ghost use Rattle.std.specs.Prelude.{◌≡◌, flat_map};
ghost use Rattle.wu_report.specs.Seeing.{Sees};
ghost use Rattle.wu_report.specs.Texts.{view_text};
ghost use Rattle.wu_report.specs.Views.{CanBeShown, CountsShown, WritesView};

use crate::lines::write_summary;
use crate::output::{Printed, flush, write_all};
use crate::skips::write_details;
use sqlite::Alter;
use std::alloc::Global;
use std::io::Write;
use wu_core::{Fault, Moment, Name};
use wu_machine::View;
use wu_passes::{Project, Takes};
use wu_views::{
    ArchiveListing, ClassListing, HostListing, ImportListing, Listing, ResultListing,
    WorkunitListing,
};

/// Writes each line that it takes.
#[derive(Drop)]
struct LineWriter<'a, W: Write> {
    out: &'a mut W,
}

impl<T: Printed, W: Write> Takes<T> for LineWriter<'_, W> {
    ghost use Rattle.wu_report.specs.Writers.{CutsLine, WritesLine};

    // A line that it takes went out whole.
    ghost takes = { λ old new line. WritesLine W.Write.contents old new (T.Printed.text line) };

    // A line that it refuses was cut: some of its bytes did not go out.
    ghost refuses = { λ old new line. CutsLine W.Write.contents old new (T.Printed.text line) };

    fn take(&mut self, line: &T) -> Result<(), Fault> {
        line.write(self.out)
    }
}

/// Writes the lines of a listing, each before the next row is asked for. It ends no session.
fn write_listing<S: Alter, L: Listing, W: Write>(
    alloc: Global,
    project: &mut Project<S>,
    out: &mut W,
) -> Result<(), Fault>
where
    L::Item: Printed,
    // Over a world with classes its lines are written, in order: all, or a prefix with a fault, and
    // with `Output` not all of them. The project is only read. Where the values can be read, and
    // steps have no limit, the fault is never `NotAProject`.
    ensures { WritesView W.Write.contents project.old project.new out.old out.new
        (λ world. flat_map L.Item.Printed.text (L.Listing.lines world))
        L.Listing.is_readable result }
{
    let mut writer = LineWriter { out };
    project.walk::<L, LineWriter<'_, W>>(alloc, &mut writer)
}

/// Writes the lines of the summary. Only `Broken` ends the session.
fn write_counts<S: Alter, W: Write>(project: &mut Project<S>, out: &mut W) -> Result<(), Fault>
    // Of a world with classes the lines of its summary are written: all, or a prefix with a fault,
    // and with `Output` not all.
    ensures written { WritesView W.Write.contents project.old project.new out.old out.new
        (λ world. view_text world View.Summary) (λ world. CanBeShown world View.Summary) result }
    // Whatever the tables hold, a summary that is written counts every row of instances and of
    // grants.
    ensures counted { CountsShown W.Write.contents project.old project.new out.old out.new result }
{
    let summary = project.summary()?;
    write_summary(out, &summary)
}

/// Writes what is open at a moment, line by line. Only `Broken` ends the session.
fn write_status<S: Alter, W: Write>(
    alloc: Global,
    project: &mut Project<S>,
    now: Moment,
    out: &mut W,
) -> Result<(), Fault>
    // Of a world with classes the lines of its status are written: all, or a prefix with a fault,
    // and with `Output` not all.
    ensures { WritesView W.Write.contents project.old project.new out.old out.new
        (λ world. view_text world (View.Status now))
        (λ world. CanBeShown world (View.Status now)) result }
{
    let lines = project.status_lines(alloc, now)?;
    write_all(out, lines.as_slice())
}

/// Writes the imports of this name, each with its skipped rows. Only `Broken` ends the session.
fn write_imports<S: Alter, W: Write>(
    alloc: Global,
    project: &mut Project<S>,
    name: &Name,
    out: &mut W,
) -> Result<(), Fault>
    // Of a world with classes the lines of its imports are written: all, or a prefix with a fault,
    // and with `Output` not all.
    ensures { WritesView W.Write.contents project.old project.new out.old out.new
        (λ world. view_text world (View.Import name.now))
        (λ world. CanBeShown world (View.Import name.now)) result }
{
    let lines = project.imports_named(alloc, name)?;
    write_details(out, lines.as_slice())
}

/// Writes the lines of a view.
fn write_view<S: Alter, W: Write>(
    alloc: Global,
    project: &mut Project<S>,
    view: &View,
    out: &mut W,
) -> Result<(), Fault>
    // Of a world with classes the lines of its view are written: all, or a prefix with a fault, and
    // with `Output` not all.
    ensures written { WritesView W.Write.contents project.old project.new out.old out.new
        (λ world. view_text world view.now) (λ world. CanBeShown world view.now) result }
    // Whatever the tables hold, a summary that is written counts every row of instances and of
    // grants.
    ensures counted { view.now ≡ View.Summary
        → CountsShown W.Write.contents project.old project.new out.old out.new result }
{
    match view {
        View::Workunits => write_listing::<S, WorkunitListing, W>(alloc, project, out),
        View::Results => write_listing::<S, ResultListing, W>(alloc, project, out),
        View::Hosts => write_listing::<S, HostListing, W>(alloc, project, out),
        View::Archive => write_listing::<S, ArchiveListing, W>(alloc, project, out),
        View::Summary => write_counts(project, out),
        View::Classes => write_listing::<S, ClassListing, W>(alloc, project, out),
        View::Imports => write_listing::<S, ImportListing, W>(alloc, project, out),
        View::Import(name) => write_imports(alloc, project, name, out),
        View::Status(now) => write_status(alloc, project, *now, out),
    }
}

/// Writes the lines of a view, and flushes after them; no clause speaks of the flush. It commits nothing, and only
/// `Broken` ends the session.
///
/// Over an older version the answer is `OldSchema`, and after the end of a session `Ended`; then nothing is written.
/// With any other fault a prefix of the text may have been written.
pub fn show<S: Alter, W: Write>(
    alloc: Global,
    project: &mut Project<S>,
    view: &View,
    out: &mut W,
) -> Result<(), Fault>
    // The lines of the world's view go out: all, or a prefix with a fault. After the end of a
    // session the answer is `Ended`, and over an older version `OldSchema`; then nothing is
    // written. Any other fault is `Output` or one of the store, and without a limit on steps none
    // is `NotAProject` where the values can be read. The project is only read: a session over a
    // world goes on over it, and nothing is committed. `Broken` alone ends the session, and means
    // that the disk failed in this call, or that the connection was not open. An open connection
    // stays open, except after `Memory` and `Broken`. Whatever the tables hold, a summary counts
    // every row of instances and of grants.
    ensures { Sees W.contents project.old project.new out.old out.new view.now result }
{
    match write_view(alloc, project, view, out) {
        Ok(()) => flush(out),
        Err(fault) => {
            if fault == Fault::Broken {
                project.end_session();
            }
            Err(fault)
        }
    }
}
