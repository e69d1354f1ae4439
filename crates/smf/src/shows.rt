// What databases hold, for people and for programs.
ghost use Rattle.smf_model.specs.Laws.{IsNumbered};

use crate::exports::{FAULT, REFUSED, held_in, write_out};
use crate::pasts::{chronicle_beside, no_chronicle};
use smf_admin::unmatched_words;
use smf_fmri::{Fmri, InstanceFmri, Items, Text};
use smf_lines::TextWriter;
use smf_model::{NoJournal, Plain, Tables};
use smf_program::{Listing, tell_no_memory};
use smf_runs::{missed_text, texts_of};
use smf_show::{
    Column, Configured, DatedChronicle, Direction, Selection, SortKey, TableOptions, all_well,
    configured_instances, json_of, long_of, metrics_of, properties_text, running_instances,
    table_of,
};
use std::alloc::{AllocError, Global};

/// The columns of a table if none are named.
const COLUMNS: &str = "state,fmri";

/// The status of a run whose words say nothing that is known.
pub(crate) const BAD_USAGE: u8 = 2;

/// Why nothing is shown.
#[derive(Drop)]
enum Unshown {
    Memory,
    /// No column has this name.
    Column(Text),
    /// This is not the name of an instance.
    Restarter(Text),
    /// No instance that is meant has this property.
    Property,
}

impl From<AllocError> for Unshown {
    fn from(_e: AllocError) -> Unshown {
        Unshown::Memory
    }
}

/// Puts the columns of names that are joined by commas.
fn put_columns(alloc: Global, columns: &mut Items<Column>, names: &str) -> Result<(), Unshown> {
    for name in names.split(',') {
        match Column::parse(name) {
            Some(column) => columns.push(column)?,
            None => return Err(Unshown::Column(Text::copy_of(alloc, name)?)),
        }
    }
    Ok(())
}

/// Puts the columns by which a table is sorted in one direction, if any are named.
fn put_keys(
    alloc: Global,
    keys: &mut Items<SortKey>,
    names: Option<&str>,
    direction: Direction,
) -> Result<(), Unshown> {
    let mut columns = Items::new(alloc);
    if let Some(names) = names {
        put_columns(alloc, &mut columns, names)?;
    }
    for column in columns.as_slice() {
        keys.push(SortKey {
            column: *column,
            direction,
        })?;
    }
    Ok(())
}

/// The restarter whose instances are shown, if one is named.
fn restarter_of(alloc: Global, name: Option<&str>) -> Result<Option<InstanceFmri>, Unshown> {
    let Some(name) = name else {
        return Ok(None);
    };
    match Fmri::parse(alloc, name) {
        Ok(fmri) => match InstanceFmri::of(fmri) {
            Some(restarter) => Ok(Some(restarter)),
            None => Err(Unshown::Restarter(Text::copy_of(alloc, name)?)),
        },
        Err(_) => Err(Unshown::Restarter(Text::copy_of(alloc, name)?)),
    }
}

fn options_of(alloc: Global, listing: &Listing<'_>) -> Result<TableOptions, Unshown> {
    let mut columns = Items::new(alloc);
    put_columns(alloc, &mut columns, listing.columns.unwrap_or(COLUMNS))?;
    let mut keys = Items::new(alloc);
    put_keys(alloc, &mut keys, listing.rising, Direction::Rising)?;
    put_keys(alloc, &mut keys, listing.falling, Direction::Falling)?;
    let restarter = restarter_of(alloc, listing.restarter)?;
    Ok(TableOptions {
        columns,
        keys,
        header: !listing.bare,
        restarter,
    })
}

/// True if a column is asked for that tells of the past of instances.
fn asks_for_past(options: &TableOptions) -> bool {
    let columns = options.columns.as_slice();
    let keys = options.keys.as_slice();
    columns.iter().any(|column| column.tells_past())
        || keys.iter().any(|key| key.column.tells_past())
}

/// The chronicle of a database, if the past is asked for.
fn chronicle_for(
    rt: &HostRuntime,
    database: &str,
    options: &TableOptions,
) -> Result<DatedChronicle, Unshown> {
    if !asks_for_past(options) {
        return Ok(no_chronicle(rt.alloc()));
    }
    match chronicle_beside(rt, database) {
        Ok(chronicle) => Ok(chronicle),
        Err(_) => Err(Unshown::Memory),
    }
}

/// The text of the instances that words mean, in the form that is asked for.
fn listed(
    rt: &HostRuntime,
    database: &str,
    repository: &Plain<NoJournal>,
    words: &[Text],
    listing: &Listing<'_>,
) -> Result<Text, Unshown> {
    let alloc = rt.alloc();
    if listing.json {
        let json = json_of(alloc, repository, words)?;
        return Ok(Text::from_string(format!(in alloc; "{json}\n")?));
    }
    if listing.long {
        return Ok(long_of(alloc, repository, words)?);
    }
    if listing.metrics {
        return Ok(metrics_of(alloc, repository, words)?);
    }
    let options = options_of(alloc, listing)?;
    let chronicle = chronicle_for(rt, database, &options)?;
    Ok(table_of(alloc, repository, words, &options, &chronicle)?)
}

/// The words about a reason why nothing is shown.
fn text_of(alloc: Global, why: &Unshown) -> Result<String, AllocError> {
    match why {
        Unshown::Memory => format!(in alloc; "smf: no memory\n"),
        Unshown::Column(name) => format!(in alloc; "smf: no column {name}\n"),
        Unshown::Restarter(name) => format!(in alloc; "smf: no restarter {name}\n"),
        Unshown::Property => format!(in alloc; "smf: no such property\n"),
    }
}

/// The status of a run that shows nothing.
fn status_of(why: &Unshown) -> u8 {
    match why {
        Unshown::Memory => FAULT,
        Unshown::Column(_) | Unshown::Restarter(_) => BAD_USAGE,
        Unshown::Property => REFUSED,
    }
}

/// Tells why nothing is shown. Gives the status of such a run.
fn tell_unshown(rt: &HostRuntime, why: &Unshown) -> u8 {
    match text_of(rt.alloc(), why) {
        Ok(text) => {
            let _told = rt.stderr().write_text(text.as_bytes());
            status_of(why)
        }
        Err(_) => tell_no_memory(&mut rt.stderr()),
    }
}

/// Tells of the words that mean no instance, as far as that can be written. Gives the status.
fn tell_missed(
    rt: &HostRuntime,
    repository: &Plain<NoJournal>,
    words: &[Text],
) -> Result<u8, AllocError> {
    let view = repository.view()?;
    let missed = unmatched_words(rt.alloc(), view.items.as_slice(), words)?;
    if missed.as_slice().is_empty() {
        return Ok(0);
    }
    let text = missed_text(rt.alloc(), missed.as_slice())?;
    let _told = rt.stderr().write_text(text.as_str().as_bytes());
    Ok(REFUSED)
}

/// Prints instances in the form that is asked for, after the words that mean none are told.
fn show(
    rt: &HostRuntime,
    database: &str,
    repository: &Plain<NoJournal>,
    words: &[Text],
    listing: &Listing<'_>,
) -> Result<u8, Unshown> {
    let missed = tell_missed(rt, repository, words)?;
    if listing.well {
        let well = all_well(rt.alloc(), repository, words)?;
        return Ok(if well { missed } else { REFUSED });
    }
    let text = listed(rt, database, repository, words, listing)?;
    let status = write_out(rt, text.as_str().as_bytes());
    Ok(if status == 0 { missed } else { status })
}

/// Which properties a name means: all without a name, those of a group, or one.
fn selection_of(alloc: Global, name: Option<&str>) -> Result<Selection, AllocError> {
    let Some(name) = name else {
        return Ok(Selection::All);
    };
    match name.split_once('/') {
        Some((group, name)) => Ok(Selection::Property {
            group: Text::copy_of(alloc, group)?,
            name: Text::copy_of(alloc, name)?,
        }),
        None => Ok(Selection::Group(Text::copy_of(alloc, name)?)),
    }
}

/// Puts each line of a text behind the name of its instance.
fn put_behind(out: &mut String, name: &InstanceFmri, text: &str) -> Result<(), AllocError> {
    for line in text.split_inclusive('\n') {
        out.push_str(name.print())?;
        out.push(' ')?;
        out.push_str(line)?;
    }
    Ok(())
}

/// The lines of the properties of instances, each behind the name of its instance if there are several; nothing if none of
/// them has such a property.
fn properties_of(
    alloc: Global,
    all: &[Configured],
    selection: &Selection,
) -> Result<Option<String>, AllocError> {
    let mut found = false;
    let mut out = String::new(alloc);
    for instance in all {
        if let Some(text) = properties_text(alloc, selection, &instance.groups)? {
            found = true;
            if all.len() > 1 {
                put_behind(&mut out, &instance.shown.name, text.as_str())?;
            } else {
                out.push_str(text.as_str())?;
            }
        }
    }
    Ok(if found { Some(out) } else { None })
}

/// Prints the properties of instances, after the words that mean none are told.
fn show_properties(
    rt: &HostRuntime,
    repository: &Plain<NoJournal>,
    words: &[Text],
    configured: bool,
    name: Option<&str>,
) -> Result<u8, Unshown> {
    let alloc = rt.alloc();
    let missed = tell_missed(rt, repository, words)?;
    let all = if configured {
        configured_instances(alloc, repository, words)?
    } else {
        running_instances(alloc, repository, words)?
    };
    let selection = selection_of(alloc, name)?;
    match properties_of(alloc, all.as_slice(), &selection)? {
        Some(text) => {
            let status = write_out(rt, text.as_bytes());
            Ok(if status == 0 { missed } else { status })
        }
        None if all.as_slice().is_empty() => Ok(missed),
        None => Err(Unshown::Property),
    }
}

/// A repository in memory of what is held.
pub(crate) fn over(alloc: Global, held: Tables) -> Plain<NoJournal>
    requires { IsNumbered held }
{
    Plain::over(alloc, held, NoJournal {})
}

/// Shows the instances that the database in a file has: those that words mean, or all without words.
pub(crate) fn show_over(
    rt: &HostRuntime,
    database: &str,
    words: &[&str],
    listing: &Listing<'_>,
) -> u8 {
    let held = match held_in(rt, database) {
        Ok(held) => held,
        Err(status) => return status,
    };
    let repository = over(rt.alloc(), held);
    let Ok(words) = texts_of(rt.alloc(), words) else {
        return tell_no_memory(&mut rt.stderr());
    };
    match show(rt, database, &repository, words.as_slice(), listing) {
        Ok(status) => status,
        Err(why) => tell_unshown(rt, &why),
    }
}

/// Prints the properties of instances that the database in a file has.
pub(crate) fn prop_over(
    rt: &HostRuntime,
    database: &str,
    words: &[&str],
    configured: bool,
    name: Option<&str>,
) -> u8 {
    let held = match held_in(rt, database) {
        Ok(held) => held,
        Err(status) => return status,
    };
    let repository = over(rt.alloc(), held);
    let Ok(words) = texts_of(rt.alloc(), words) else {
        return tell_no_memory(&mut rt.stderr());
    };
    match show_properties(rt, &repository, words.as_slice(), configured, name) {
        Ok(status) => status,
        Err(why) => tell_unshown(rt, &why),
    }
}
