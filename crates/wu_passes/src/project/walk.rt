//! Walks over a project: what a view lists, handed on line by line.

use crate::project::Project;
use sqlite::Alter;
use std::alloc::Global;
use wu_core::{Archived, Fault, HostClass};
use wu_schema::rows::HostSum;
use wu_views::{
    ArchiveListing, ClassListing, HostListing, ImportLine, ImportListing, Listing, ResultLine,
    ResultListing, Takes, WorkunitLine, WorkunitListing, walk,
};

impl<S: Alter> Project<S> {
    ghost use Rattle.wu_core.specs.Classes.{AreClassed};
    ghost use Rattle.wu_core.specs.Storable.{AreStorable, IsArchiveStorable};
    ghost use Rattle.wu_core.specs.World.{World};
    ghost use Rattle.wu_views.specs.Lines.{archived_lines, AreHostsNamed, AreImportsStorable, class_lines, host_lines, import_lines, result_lines, workunit_lines};
    ghost use Rattle.wu_passes.specs.Walks.{WalksOver};

    /// Hands each line of a view to a taker, before the next row is asked for: no list of rows is held.
    ///
    /// `NotAProject` means that a row is invalid, and `Output` that the taker takes no more lines. Over an older
    /// version the answer is `OldSchema`. It ends no session: after `Broken` its caller calls `end_session`.
    pub fn walk<L: Listing, K: Takes<L::Item>>(
        &mut self,
        alloc: Global,
        taker: &mut K,
    ) -> Result<(), Fault>
        // The taker gets the lines of the world in order, each once: all, or the first ones up to a
        // fault. After the end of a session the answer is `Ended`, and over an older version
        // `OldSchema`. Nothing is touched then. `Output` means that the taker takes no more. Any
        // other fault is one of the store. Without a limit on steps, none is `NotAProject` if the
        // values can be read. `Broken` means that the disk failed in this call, or that the
        // connection was not open. Over a closed connection no line is handed on. The project is
        // only read, and no fault ends the session.
        ensures { WalksOver L.Listing.lines L.Listing.is_readable K.Takes.takes K.Takes.refuses
            self.old self.new taker.old taker.new result }
    {
        if self.has_ended {
            return Err(Fault::Ended);
        }
        if let Some(version) = self.older {
            return Err(Fault::OldSchema(version));
        }
        walk::<S, L, K>(&mut self.conn, alloc, taker)
    }

    /// Hands on the lines of all workunits, in order of number, as `walk` does.
    pub fn walk_workunits<K: Takes<WorkunitLine>>(
        &mut self,
        alloc: Global,
        taker: &mut K,
    ) -> Result<(), Fault>
        // All that holds of `walk` holds, of one line for each workunit, in order of number.
        ensures { WalksOver workunit_lines AreStorable K.Takes.takes K.Takes.refuses
            self.old self.new taker.old taker.new result }
    {
        self.walk::<WorkunitListing, K>(alloc, taker)
    }

    /// Hands on the lines of all instances, in order of their workunits and then of their own numbers, as `walk` does.
    pub fn walk_results<K: Takes<ResultLine>>(
        &mut self,
        alloc: Global,
        taker: &mut K,
    ) -> Result<(), Fault>
        // All that holds of `walk` holds, of one line for each instance, in order of workunit and
        // own number.
        ensures { WalksOver result_lines AreStorable K.Takes.takes K.Takes.refuses
            self.old self.new taker.old taker.new result }
    {
        self.walk::<ResultListing, K>(alloc, taker)
    }

    /// Hands on the lines of all hosts that have grants, in order of their names' bytes, as `walk` does.
    pub fn walk_hosts<K: Takes<HostSum>>(
        &mut self,
        alloc: Global,
        taker: &mut K,
    ) -> Result<(), Fault>
        // All that holds of `walk` holds, of one line for each host with grants, in order of names'
        // bytes.
        ensures { WalksOver host_lines AreHostsNamed K.Takes.takes K.Takes.refuses
            self.old self.new taker.old taker.new result }
    {
        self.walk::<HostListing, K>(alloc, taker)
    }

    /// Hands on the lines of all archived workunits, in order of their archiving, as `walk` does.
    pub fn walk_archive<K: Takes<Archived>>(
        &mut self,
        alloc: Global,
        taker: &mut K,
    ) -> Result<(), Fault>
        // All that holds of `walk` holds, of one line for each archived workunit, in order of
        // archiving.
        ensures { WalksOver archived_lines IsArchiveStorable K.Takes.takes K.Takes.refuses
            self.old self.new taker.old taker.new result }
    {
        self.walk::<ArchiveListing, K>(alloc, taker)
    }

    /// Hands on the lines of all hosts that a file of classes named, in order of their names' bytes, as `walk` does.
    pub fn walk_classes<K: Takes<HostClass>>(
        &mut self,
        alloc: Global,
        taker: &mut K,
    ) -> Result<(), Fault>
        // All that holds of `walk` holds, of one line for each host with a class, in order of
        // names' bytes.
        ensures { WalksOver class_lines (λ (world : World). AreClassed world.classes)
            K.Takes.takes K.Takes.refuses self.old self.new taker.old taker.new result }
    {
        self.walk::<ClassListing, K>(alloc, taker)
    }

    /// Hands on the lines of all imports, in order of their kinds and of their names' bytes, as `walk` does.
    pub fn walk_imports<K: Takes<ImportLine>>(
        &mut self,
        alloc: Global,
        taker: &mut K,
    ) -> Result<(), Fault>
        // All that holds of `walk` holds, of one line for each import, in order of kind and names'
        // bytes.
        ensures { WalksOver import_lines AreImportsStorable K.Takes.takes K.Takes.refuses
            self.old self.new taker.old taker.new result }
    {
        self.walk::<ImportListing, K>(alloc, taker)
    }
}
