//! A session of svccfg at a terminal: each line that is typed is a request of its own.

use crate::client::{Client, REFUSED, UNANSWERED};
use crate::fault::{AskFault, if_given};
use crate::place::find;
use crate::selection::{Selection, Typed, typed_of};
use std::io::{BufRead, Write};
use std::rt::HostRuntime;

/// Shows what is selected, and reads the line that is typed behind that, without its end. None if no whole line comes, or if
/// what is selected cannot be shown.
fn read_typed(rt: &HostRuntime, selection: &Selection) -> Result<Option<Vec<u8>>, AskFault> {
    let alloc = rt.alloc();
    let prompt = selection.prompt(alloc)?;
    if rt.stderr().write_all(prompt.as_slice()).is_err() {
        return Ok(None);
    }
    let mut line: Vec<u8> = Vec::new(alloc);
    let _read = if_given(rt.reader().read_until(b'\n', &mut line))?;
    match line.pop() {
        Some(b'\n') => Ok(Some(line)),
        _ => Ok(None),
    }
}

impl<'a> Client<'a> {
    /// Asks by a typed line over what is selected, and prints the answer. Gives the status.
    fn ask_typed(
        &self,
        rt: &HostRuntime,
        selection: &Selection,
        line: &[u8],
    ) -> Result<u8, AskFault> {
        let script = selection.request(rt.alloc(), line)?;
        self.by_script(rt, &script)
    }

    /// Does the lines that are typed, as long as answers come. Gives the status: 1 if a line failed.
    fn do_typed(&self, rt: &HostRuntime) -> Result<u8, AskFault> {
        let _found = find(rt, self.folder)?;
        let mut selection = Selection::nothing(rt.alloc())?;
        let mut worst = 0;
        for _ in 0..u64::MAX {
            let Some(line) = read_typed(rt, &selection)? else {
                break;
            };
            match typed_of(&line) {
                Typed::Nothing => {}
                Typed::End => return Ok(worst),
                Typed::Request => match self.status(rt, self.ask_typed(rt, &selection, &line)) {
                    0 => selection = selection.after_line(rt.alloc(), &line)?,
                    UNANSWERED => return Ok(UNANSWERED),
                    _ => worst = REFUSED,
                },
            }
        }
        let _told = eprintln!(rt; "");
        Ok(worst)
    }

    /// Asks by the lines of svccfg that are typed, one by one, over what the lines before have selected.
    pub fn talk(&self, rt: &HostRuntime) -> u8 {
        self.status(rt, self.do_typed(rt))
    }
}
