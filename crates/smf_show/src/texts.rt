//! Texts of what a repository holds.

ghost use Rattle.std.specs.Prelude.{◌≡◌, [], Some, IfOk};
ghost use Rattle.serde_json.specs.Read.{read};
ghost use Rattle.smf_show.specs.Chosen.{configured_instances, running_instances, shown_instances};
ghost use Rattle.smf_show.specs.Json.{all_data};
ghost use Rattle.smf_show.specs.Long.{long_text};
ghost use Rattle.smf_show.specs.Metrics.{metrics_text};
ghost use Rattle.smf_show.specs.TableRows.{table_rows};
ghost use Rattle.smf_show.specs.Tables.{table_text};
ghost use Rattle.smf_show.specs.Well.{are_well};

use crate::chosen::{configured_instances, running_instances, shown_instances, table_rows};
use crate::json::json_text;
use crate::long::long_text;
use crate::metrics::metrics_text;
use crate::row::DatedChronicle;
use crate::table::{TableOptions, table_text};
use crate::well::are_well;
use smf_fmri::Text;
use smf_model::{Journal, Plain};
use std::alloc::{AllocError, Global};

/// One JSON text: an array with an object for each instance that one of the words matches, or for all without words, in
/// the byte order of their names.
pub fn json_of<J: Journal>(
    alloc: Global,
    repository: &Plain<J>,
    words: &[Text],
) -> Result<Text, AllocError>
    ensures { IfOk result
        (λ text. read text ≡ Some (all_data (configured_instances repository.now.held words.now))) }
{
    let all = configured_instances(alloc, repository, words)?;
    json_text(alloc, all.as_slice())
}

/// True if each enabled instance that one of the words matches, or each without words, is online with no transition
/// under way.
pub fn all_well<J: Journal>(
    alloc: Global,
    repository: &Plain<J>,
    words: &[Text],
) -> Result<bool, AllocError>
    ensures { IfOk result (λ b. b ≡ are_well (shown_instances repository.now.held words.now)) }
{
    let all = shown_instances(alloc, repository, words)?;
    Ok(are_well(all.as_slice()))
}

/// A table of the instances that one of the words matches, or of all without words, with what a chronicle tells of them.
pub fn table_of<J: Journal>(
    alloc: Global,
    repository: &Plain<J>,
    words: &[Text],
    options: &TableOptions,
    chronicle: &DatedChronicle,
) -> Result<Text, AllocError>
    ensures { IfOk result
        (λ text. text ≡ table_text options.now (table_rows chronicle.now repository.now.held words.now)) }
{
    let all = table_rows(alloc, repository, words, chronicle)?;
    table_text(alloc, options, all)
}

/// A block of lines for each instance that one of the words matches, or for all without words, with the dependencies of
/// its snapshot `running`.
pub fn long_of<J: Journal>(
    alloc: Global,
    repository: &Plain<J>,
    words: &[Text],
) -> Result<Text, AllocError>
    ensures { IfOk result
        (λ text. text ≡ long_text (shown_instances repository.now.held []) (running_instances repository.now.held words.now)) }
{
    let all = shown_instances(alloc, repository, &[])?;
    let instances = running_instances(alloc, repository, words)?;
    long_text(alloc, all.as_slice(), instances.as_slice())
}

/// Metrics of the instances that one of the words matches, or of all without words.
pub fn metrics_of<J: Journal>(
    alloc: Global,
    repository: &Plain<J>,
    words: &[Text],
) -> Result<Text, AllocError>
    ensures { IfOk result (λ text. text ≡ metrics_text (shown_instances repository.now.held words.now)) }
{
    let all = shown_instances(alloc, repository, words)?;
    metrics_text(alloc, all.as_slice())
}
