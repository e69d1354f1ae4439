//! Who else may write in the folder of a server, or in those above it: he could lead a client anywhere.

use crate::fault::{AskFault, if_given, told};
use std::fs;
use std::fs::Metadata;
use std::os::unix::fs::MetadataExt;
use std::rt::HostRuntime;

/// The bit of a folder in which nobody replaces what belongs to another, as /tmp.
const STICKY: u32 = 0o1000;

/// The bit by which the group may write.
const BY_GROUP: u32 = 0o020;

/// The bit by which all users may write.
const BY_ALL: u32 = 0o002;

/// The superuser.
const ROOT: u32 = 0;

/// Where a user's name stands in a line of passwd(5), or a group's in one of group(5).
const NUMBER: usize = 2;

/// The folder that is asked, and the users that may write there.
#[derive(Clone, Copy)]
struct Way<'a> {
    /// The folder, by the name that the client was given.
    folder: &'a str,
    /// The user who asks.
    own: u32,
    /// The owner of /.
    top: u32,
}

/// The name of a number in a file as passwd(5) or group(5); the number if it has none.
fn name_of(rt: &HostRuntime, file: &str, number: u32) -> Result<String, AskFault> {
    let alloc = rt.alloc();
    let sought = format!(in alloc; "{number}")?;
    if let Some(text) = if_given(fs::read_to_string(rt, file))? {
        for line in text.as_str().lines() {
            if line.split(':').nth(NUMBER) == Some(sought.as_str()) {
                let name = line.split(':').next().unwrap_or("");
                return Ok(format!(in alloc; "{name}")?);
            }
        }
    }
    Ok(sought)
}

impl<'a> Way<'a> {
    /// Tells which folder another one could change.
    fn distrust(&self, rt: &HostRuntime, who: &str, folder: &str) -> Result<(), AskFault> {
        told(format!(in rt.alloc();
            "the server at {} is not asked: {who} may write in {folder}",
            self.folder
        ))
    }

    /// Refuses a folder of another user.
    fn refuse_owner(&self, rt: &HostRuntime, folder: &str, owner: u32) -> Result<(), AskFault> {
        let alloc = rt.alloc();
        let owner = name_of(rt, "/etc/passwd", owner)?;
        let owner = owner.as_str();
        let mut words = format!(in alloc;
            "no right to ask the server at {}: {folder} belongs to {owner}",
            self.folder
        )?;
        if self.own == ROOT {
            let how = format!(in alloc; "; ask as {owner}: setpriv --reuid={owner} ..")?;
            words.push_str(how.as_str())?;
        }
        told(Ok(words))
    }

    /// Refuses a folder in which others than the user, root and the owner of / may write. In one on the way nobody replaces
    /// what belongs to another if its last bit is set.
    fn check(
        &self,
        rt: &HostRuntime,
        folder: &str,
        facts: &Metadata,
        is_last: bool,
    ) -> Result<(), AskFault> {
        let (owner, mode) = (facts.uid(), facts.mode());
        if owner != ROOT && owner != self.own && owner != self.top {
            let owner = name_of(rt, "/etc/passwd", owner)?;
            return self.distrust(rt, owner.as_str(), folder);
        }
        if mode & STICKY != 0 && !is_last {
            return Ok(());
        }
        if mode & BY_GROUP != 0 {
            let group = name_of(rt, "/etc/group", facts.gid())?;
            let who = format!(in rt.alloc(); "group {}", group.as_str())?;
            return self.distrust(rt, who.as_str(), folder);
        }
        if mode & BY_ALL != 0 {
            return self.distrust(rt, "all users", folder);
        }
        Ok(())
    }

    /// Checks a folder, if it is still there. Says whether it is.
    fn check_named(&self, rt: &HostRuntime, folder: &str, is_last: bool) -> Result<bool, AskFault> {
        match if_given(fs::metadata(rt, folder))? {
            Some(facts) => {
                self.check(rt, folder, &facts, is_last)?;
                Ok(true)
            }
            None => Ok(false),
        }
    }
}

/// Whether a folder is there. It is refused unless it belongs to the user who asks, and only he and root may write in it and
/// in those above it. Its name is a full one, without links. `asked` is the name that the client was given.
pub(crate) fn is_own(rt: &HostRuntime, asked: &str, folder: &str) -> Result<bool, AskFault> {
    let (Some(own), Some(top), Some(facts)) = (
        if_given(fs::metadata(rt, "/proc/self"))?,
        if_given(fs::metadata(rt, "/"))?,
        if_given(fs::metadata(rt, folder))?,
    ) else {
        return Ok(false);
    };
    let way = Way {
        folder: asked,
        own: own.uid(),
        top: top.uid(),
    };
    if facts.uid() != way.own {
        way.refuse_owner(rt, folder, facts.uid())?;
    }
    if !way.check_named(rt, "/", folder == "/")? {
        return Ok(false);
    }
    for (place, _) in folder.match_indices('/') {
        if place > 0 && !way.check_named(rt, &folder[..place], false)? {
            return Ok(false);
        }
    }
    way.check_named(rt, folder, true)
}
