//! Templates: TOML documents that set the parameters of a batch's workunits.

ghost use Rattle.std.specs.Prelude.{◌≡◌, ◌⊎◌, Some, string_bytes, IfOk, IfErr};
ghost use Rattle.std.specs.BTreeMap.{keys};
ghost use Rattle.std.specs.List.{list_all};
ghost use Rattle.toml.specs.Data.{get_member};
ghost use Rattle.toml.specs.View.{table_view};
ghost use Rattle.wu_core.specs.Reads.{IsOrWantsMemory};
ghost use Rattle.wu_core.specs.declared.fault.Fault.TheVariants.{Memory};
ghost use Rattle.wu_feed.specs.Templates.{IsNoDocument, IsTemplateFault, KeepsDocument, TellsLongTemplate, document_of, document_parameters, is_key, template_of, value_or};

use crate::limits::LONGEST_TEMPLATE;
use std::alloc::Global;
use toml::Table;
use wu_core::{Fault, Params, TemplateKey};

/// Returns the document that was read. An error of `toml` is `Memory` if it is out of memory, and otherwise
/// `BadTemplate`.
fn document_read(read: Result<Table, toml::de::Error>) -> Result<Table, Fault>
    // A document is kept; an error of `toml` is `Memory` if it says out of memory, and otherwise
    // `BadTemplate` with `Document`.
    ensures { KeepsDocument read result }
{
    match read {
        Ok(table) => Ok(table),
        Err(error) if error.is_memory() => Err(Fault::Memory),
        Err(_) => Err(Fault::BadTemplate(TemplateKey::Document)),
    }
}

/// Reads a text as a TOML document. Any other text is `BadTemplate`.
fn read_document(alloc: Global, text: &[u8]) -> Result<Table, Fault>
    // A result is the document that the text is.
    ensures read { IfOk result (λ table. document_of text.now ≡ Some (table_view table)) }
    // The fault is `Memory`, or `BadTemplate` with `Document` of a text that is no document.
    ensures refused { IfErr result (λ fault. (fault ≡ Memory) ⊎ IsNoDocument text.now fault) }
    // A template above 65,536 bytes is refused as no document, even if the program is out of
    // memory.
    ensures long { TellsLongTemplate result text.now }
{
    if text.len() > LONGEST_TEMPLATE {
        return Err(Fault::BadTemplate(TemplateKey::Document));
    }
    document_read(toml::table_from_slice(alloc, text))
}

/// The keys that a template may have.
const KEYS: [&str; 7] = [
    "min_quorum",
    "target_nresults",
    "max_error_results",
    "max_total_results",
    "max_success_results",
    "delay_bound",
    "credit",
];

/// Returns whether a template may have the key.
fn is_key(text: &str) -> bool
    ensures { result ≡ is_key text.now }
{
    KEYS.contains(&text)
}

/// Returns whether the document has only keys that a template may have.
fn has_only_keys(table: &Table) -> bool
    ensures { result ≡ list_all (λ key. is_key (string_bytes key)) (keys table.now) }
{
    table.keys().all(|key| is_key(key.as_str()))
}

/// Returns the value of the key if it is a whole number, and the default if the key is absent; otherwise `None`.
fn value_or(table: &Table, key: &str, default: u32) -> Option<i64>
    ensures { result ≡ value_or default (get_member key.now (table_view table.now)) }
{
    match table.get(key) {
        Some(value) => value.as_integer(),
        None => Some(i64::from(default)),
    }
}

/// Returns the parameters that the document sets.
fn read_table(table: &Table) -> Result<Params, Fault>
    ensures { result ≡ document_parameters (table_view table.now) }
{
    if !has_only_keys(table) {
        return Err(Fault::BadTemplate(TemplateKey::Unknown));
    }
    let default = Params::default();
    Params::from_template([
        value_or(table, "min_quorum", default.min_quorum()),
        value_or(table, "target_nresults", default.target_nresults()),
        value_or(table, "max_error_results", default.max_error_results()),
        value_or(table, "max_total_results", default.max_total_results()),
        value_or(table, "max_success_results", default.max_success_results()),
        value_or(table, "delay_bound", default.delay_bound()),
        value_or(table, "credit", default.credit()),
    ])
}

/// Reads the parameters that a template of at most 65,536 bytes sets. Absent keys have their defaults.
///
/// Any other text is `BadTemplate`. It has `Document` if the text is too long or no TOML document, else `Unknown` if it
/// has a key that no template has. Otherwise it has the first key, in the order of the fields of `Params`, whose value
/// is no whole number or out of its range.
pub fn read_template(alloc: Global, text: &[u8]) -> Result<Params, Fault>
    // A template reads as the parameters that it sets, or as out of memory; any other text is
    // `BadTemplate` with its first fault.
    ensures exact { IsOrWantsMemory result (template_of text.now) }
    // A fault is `Memory`, or `BadTemplate` with a key.
    ensures told { IfErr result IsTemplateFault }
    // A template above 65,536 bytes is refused as no document, even if the program is out of
    // memory.
    ensures long { TellsLongTemplate result text.now }
{
    let table = read_document(alloc, text)?;
    read_table(&table)
}
