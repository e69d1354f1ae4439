// How the first process of a contract ended.
ghost use Rattle.smf_keeper.specs.Ends.{end_if_known, end_of};
ghost use Rattle.std.specs.Prelude.{◌≡◌};

use smf_edge::FirstEnd;

/// The end that a status tells, as wait gives it: the signal in the last seven bits, whether a core was left in the one
/// above, and then the code (wait(2)).
pub(crate) fn end_of(status: u64) -> FirstEnd
    ensures { result ≡ end_of status }
{
    if status / 128 % 2 == 1 {
        return FirstEnd::Core;
    }
    if status % 128 != 0 {
        return FirstEnd::Signal;
    }
    FirstEnd::Code((status / 256 % 256) as u8)
}

/// The end that a status tells. Where nobody knows it, what watched over the process was killed, and so was that.
pub(crate) fn end_if_known(status: Option<u64>) -> FirstEnd
    ensures { result ≡ end_if_known status }
{
    match status {
        Some(status) => end_of(status),
        None => FirstEnd::Signal,
    }
}
