//! Laws: which schemas have a project, and what an index leaves.

ghost use Rattle.std.specs.Prelude.{ℕ, List, codes};
ghost use Rattle.sqlite.specs.Schema.{Schema};
ghost use Rattle.wu_schema.specs.Indexes.{DefinesIndex, LeavesWorlds};
ghost use Rattle.wu_schema.specs.Refines.{IsFree};
ghost use Rattle.wu_schema.specs.Versions.{HasProject, LacksProject};

use sqlite::Alter;

/// Where nothing has the name, there is no project.
pub fn a_free_name_lacks_a_project()
    // Where nothing has the name `project`, the question for the version is refused for a missing
    // table or column.
    ensures { (schema : Schema) → IsFree schema (codes "project") → LacksProject schema }
{}

/// Where a table `project` has the three columns, whatever else it has, there is a project.
pub fn columns_of_a_project_are_found()
    // Over a table `project` with its three columns, the question for the version is not refused
    // for a missing table or column.
    ensures { (schema : Schema) → HasProject schema → ¬ LacksProject schema }
{}

/// An index that is not unique, made on a table that its name finds, leaves the world.
pub fn an_index_leaves_the_world<S: Alter>()
    // A statement that makes an index, not unique, on a table that its name finds leaves each
    // represented world.
    ensures { (text name : List ℕ) → DefinesIndex text name → LeavesWorlds S.Store text name }
{}
