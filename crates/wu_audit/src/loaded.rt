//! A world held in memory: all that the tables of a project represent.

ghost use Rattle.std.specs.Prelude.{◌≡◌, ◌≤◌, ◌<◌, ◌^◌, ◌↔◌, true, IsTrue};
ghost use Rattle.wu_core.specs.Names.{is_name};
ghost use Rattle.wu_audit.specs.LoadedWorlds.{world_of_parts};
ghost use Rattle.wu_core.specs.World.{World, Import, MayBeKept};

use std::marker::Model;
use wu_core::{Archived, Bytes, Grant, HostClass, ImportKind, Name, Workunit};

/// What is kept permanently of an imported file.
#[derive(Drop)]
pub struct Imported {
    kind: ImportKind,
    name: Name,
    template: Bytes,
    content: Bytes,
    first_number: u64,
    verdicts: Bytes,
}

impl Model for Imported {
    ghost use Rattle.wu_core.specs.World.{Import};

    ghost Value = { Import };

    ghost view = { λ import. record {
      kind = import.kind;
      name = import.name;
      template = import.template;
      content = import.content;
      first_number = import.first_number;
      verdicts = import.verdicts;
    } };
}

impl Imported {
    /// Makes an import of this kind and name, with its content and its first answer. The answer has the first number of
    /// a batch, 0 if it made no workunit, and a verdict for each row.
    pub fn new(
        kind: ImportKind,
        name: Name,
        template: Bytes,
        content: Bytes,
        first_number: u64,
        verdicts: Bytes,
    ) -> Self
        // The kind is this one.
        ensures kind { result.kind ≡ kind }
        // The name is this one.
        ensures name { result.name ≡ name }
        // The template is this one.
        ensures template { result.template ≡ template }
        // The content is this one.
        ensures content { result.content ≡ content }
        // The first number is this one.
        ensures first_number { result.first_number ≡ first_number }
        // The verdicts are these.
        ensures verdicts { result.verdicts ≡ verdicts }
    {
        Imported {
            kind,
            name,
            template,
            content,
            first_number,
            verdicts,
        }
    }

    /// Returns the kind.
    pub fn kind(&self) -> ImportKind
        // It is the kind of the import.
        ensures { result ≡ self.now.kind }
    {
        self.kind
    }

    /// Returns the name that the import came under.
    pub fn name(&self) -> &Name
        // It is the name of the import.
        ensures { result.now ≡ self.now.name }
    {
        &self.name
    }

    /// Returns the template of a batch, or no bytes.
    pub fn template(&self) -> &Bytes
        // It is the template of the import.
        ensures { result.now ≡ self.now.template }
    {
        &self.template
    }

    /// Returns the content of the file.
    pub fn content(&self) -> &Bytes
        // It is the content of the import.
        ensures { result.now ≡ self.now.content }
    {
        &self.content
    }

    /// Returns the number of the first workunit that the import made, or 0.
    pub fn first_number(&self) -> u64
        // It is the first number of the import.
        ensures { result ≡ self.now.first_number }
    {
        self.first_number
    }

    /// Returns whether only a batch has a template, and a first number is there only if workunits were made.
    pub fn may_be_kept(&self) -> bool
        // It is true exactly where only a batch has a template, and only an import that made
        // workunits has a first number.
        ensures { IsTrue result ↔ MayBeKept self.now }
    {
        let is_batch = self.kind == ImportKind::Batch;
        let has_made = is_batch && !self.verdicts.is_empty();
        (is_batch || self.template.is_empty()) && (has_made || self.first_number == 0)
    }

    /// Returns the verdicts, one code for each row.
    pub fn verdicts(&self) -> &Bytes
        // These are the verdicts of the import.
        ensures { result.now ≡ self.now.verdicts }
    {
        &self.verdicts
    }
}

/// A world held in memory: workunits in order of number, grants and archived rows in order of their making, imports in
/// any order, and hosts that have a class in order of their names.
#[derive(Drop)]
pub struct Loaded {
    workunits: Vec<Workunit>,
    grants: Vec<Grant>,
    archived: Vec<Archived>,
    imports: Vec<Imported>,
    classes: Vec<HostClass>,
    next_number: u64,
    version: u64,
}

impl Model for Loaded {
    ghost use Rattle.wu_core.specs.World.{World};

    ghost Value = { World };

    ghost view = { λ loaded. record {
      workunits = loaded.workunits.items;
      grants = loaded.grants.items;
      archived = loaded.archived.items;
      imports = loaded.imports.items;
      classes = loaded.classes.items;
      next_number = loaded.next_number;
      version = loaded.version;
    } };
}

/// The parts of a world held in memory, apart from its imports.
#[derive(Drop)]
pub struct LoadedParts {
    pub workunits: Vec<Workunit>,
    pub grants: Vec<Grant>,
    pub archived: Vec<Archived>,
    pub classes: Vec<HostClass>,
    pub next_number: u64,
    pub version: u64,
}

impl Loaded {
    /// Makes the world with these.
    pub fn new(
        workunits: Vec<Workunit>,
        grants: Vec<Grant>,
        archived: Vec<Archived>,
        imports: Vec<Imported>,
        classes: Vec<HostClass>,
        next_number: u64,
        version: u64,
    ) -> Self
        // The workunits are these.
        ensures workunits { result.workunits ≡ workunits.items }
        // The grants are these.
        ensures grants { result.grants ≡ grants.items }
        // The archived rows are these.
        ensures archived { result.archived ≡ archived.items }
        // The imports are these.
        ensures imports { result.imports ≡ imports.items }
        // The hosts with a class are these.
        ensures classes { result.classes ≡ classes.items }
        // The next number is this one.
        ensures next_number { result.next_number ≡ next_number }
        // The version is this one.
        ensures version { result.version ≡ version }
    {
        Loaded {
            workunits,
            grants,
            archived,
            imports,
            classes,
            next_number,
            version,
        }
    }

    /// Returns the workunits, in order of number.
    pub fn workunits(&self) -> &[Workunit]
        // These are the workunits of the world.
        ensures { result.now ≡ self.now.workunits }
    {
        self.workunits.as_slice()
    }

    /// Returns the grants, in order of their making.
    pub fn grants(&self) -> &[Grant]
        // These are the grants of the world.
        ensures { result.now ≡ self.now.grants }
    {
        self.grants.as_slice()
    }

    /// Returns the archived rows, in order of their archiving.
    pub fn archived(&self) -> &[Archived]
        // These are the archived rows of the world.
        ensures { result.now ≡ self.now.archived }
    {
        self.archived.as_slice()
    }

    /// Returns the imports, in any order.
    pub fn imports(&self) -> &[Imported]
        // These are the imports of the world.
        ensures { result.now ≡ self.now.imports }
    {
        self.imports.as_slice()
    }

    /// Returns the hosts that have a class, in order of their names' bytes.
    pub fn classes(&self) -> &[HostClass]
        // These are the hosts with a class of the world.
        ensures { result.now ≡ self.now.classes }
    {
        self.classes.as_slice()
    }

    /// Returns the number that the next workunit gets.
    pub fn next_number(&self) -> u64
        // It is the next number of the world.
        ensures { result ≡ self.now.next_number }
    {
        self.next_number
    }

    /// Returns the version of the schema that the tables are of.
    pub fn version(&self) -> u64
        // It is the version of the world.
        ensures { result ≡ self.now.version }
    {
        self.version
    }

    /// Returns the parts of the world. Its imports come apart from the others, since changes may borrow their contents.
    pub fn into_parts(self) -> (LoadedParts, Vec<Imported>)
        // The world is that of these parts and imports.
        ensures { world_of_parts result.0 result.1.items ≡ self }
    {
        let Loaded {
            workunits,
            grants,
            archived,
            imports,
            classes,
            next_number,
            version,
        } = self;
        let parts = LoadedParts {
            workunits,
            grants,
            archived,
            classes,
            next_number,
            version,
        };
        (parts, imports)
    }
}
