//! The files of a project.

use sqlite::{Alter, Connection, FileStore, Files};
use sqlite_disk::Disk;
use wu_drive::Project;
use wu_stops::store_of;

/// Returns the database of a project. It is one call over any store.
fn released<S: Alter + Drop>(project: Project<S>) -> Connection<S> {
    project.release()
}

/// Returns the database of a project in two files.
///
/// It is one function for all its callers: that two files serve as a store is proved again in each that calls one over
/// any store.
pub fn database_of<D: Disk + Drop>(project: Project<FileStore<D>>) -> Connection<FileStore<D>> {
    released(project)
}

/// Returns the two files of a project without closing its database.
pub fn files_of<D: Disk + Drop>(project: Project<FileStore<D>>) -> Files<D> {
    store_of(database_of(project)).close()
}
