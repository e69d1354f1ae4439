use crate::lines::do_line;
use crate::picture::picture;
use smf_model::{Journal, Plain};
use smf_store::open_repository;
use smf_svccfg::Selection;
use sqlite::{Alter, Connection, Error};
use std::alloc::Global;

/// Something to do over a database. It is done over any store: each function that gives it a store on disks takes far
/// longer to prove.
pub(crate) trait Work<T> {
    fn over<S: Alter + Drop>(self, alloc: Global, conn: Connection<S>) -> Done<T, S>;
}

/// The answer of what was done over a database, and its store again.
pub(crate) struct Done<T, S> {
    pub(crate) answer: T,
    pub(crate) store: S,
}

/// Does lines up to one that has no reply, and gives back how many had one.
fn do_lines<J: Journal>(alloc: Global, repository: &mut Plain<J>, lines: &[&str]) -> usize {
    let mut selection = Selection::Nothing;
    for (at, line) in lines.iter().enumerate() {
        if !do_line(alloc, &mut selection, repository, line) {
            return at;
        }
    }
    lines.len()
}

/// Opens the store, does lines, and counts the replies. The first is that the store is open.
#[derive(Drop)]
pub(crate) struct CountReplies<'a> {
    pub(crate) lines: &'a [&'a str],
}

impl<'a> Work<usize> for CountReplies<'a> {
    fn over<S: Alter + Drop>(self, alloc: Global, conn: Connection<S>) -> Done<usize, S> {
        match open_repository(alloc, conn) {
            Ok(mut repository) => Done {
                answer: do_lines(alloc, &mut repository, self.lines).saturating_add(1),
                store: repository.into_journal().release().into_store(),
            },
            Err((_, conn)) => Done {
                answer: 0,
                store: conn.into_store(),
            },
        }
    }
}

/// Opens the store, does lines, and takes its picture: none if a line has no reply.
#[derive(Drop)]
pub(crate) struct TakePicture<'a> {
    pub(crate) lines: &'a [&'a str],
}

impl<'a> Work<Option<Vec<u8>>> for TakePicture<'a> {
    fn over<S: Alter + Drop>(self, alloc: Global, conn: Connection<S>) -> Done<Option<Vec<u8>>, S> {
        match open_repository(alloc, conn) {
            Ok(mut repository) => {
                let replies = do_lines(alloc, &mut repository, self.lines);
                let mut conn = repository.into_journal().release();
                let taken = picture(alloc, &mut conn).ok();
                Done {
                    answer: if replies < self.lines.len() {
                        None
                    } else {
                        taken
                    },
                    store: conn.into_store(),
                }
            }
            Err((_, conn)) => Done {
                answer: None,
                store: conn.into_store(),
            },
        }
    }
}

/// Does statements.
#[derive(Drop)]
pub(crate) struct Execute<'a> {
    pub(crate) statements: &'a str,
}

impl<'a> Work<Result<(), Error>> for Execute<'a> {
    fn over<S: Alter + Drop>(
        self,
        _alloc: Global,
        mut conn: Connection<S>,
    ) -> Done<Result<(), Error>, S> {
        Done {
            answer: conn.execute_batch(self.statements),
            store: conn.into_store(),
        }
    }
}

/// The picture of a database, and its picture after its store was opened.
#[derive(Drop)]
pub(crate) struct Pictures {
    pub(crate) found: Vec<u8>,
    pub(crate) opened: Vec<u8>,
}

/// Takes both pictures: none if the store does not open.
#[derive(Drop)]
pub(crate) struct TakeBoth {}

fn both_of(
    found: Result<Vec<u8>, Error>,
    opened: Result<Vec<u8>, Error>,
) -> Result<Option<Pictures>, Error> {
    Ok(Some(Pictures {
        found: found?,
        opened: opened?,
    }))
}

impl Work<Result<Option<Pictures>, Error>> for TakeBoth {
    fn over<S: Alter + Drop>(
        self,
        alloc: Global,
        mut conn: Connection<S>,
    ) -> Done<Result<Option<Pictures>, Error>, S> {
        let found = picture(alloc, &mut conn);
        match open_repository(alloc, conn) {
            Ok(repository) => {
                let mut conn = repository.into_journal().release();
                let opened = picture(alloc, &mut conn);
                Done {
                    answer: both_of(found, opened),
                    store: conn.into_store(),
                }
            }
            Err((_, conn)) => Done {
                answer: found.map(|_| None),
                store: conn.into_store(),
            },
        }
    }
}
