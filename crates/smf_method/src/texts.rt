ghost use Rattle.smf_method.specs.Tokens.{instance_text, method_text, names_of, restarter_text, token_text};
ghost use Rattle.std.specs.Prelude.{◌≡◌};

use smf_contract::Method;
use smf_fmri::InstanceFmri;

/// The name of svc.startd.
const STARTD: &str = "svc:/system/svc/restarter:default";

/// The method's name, which is that of its group.
pub fn method_text(method: Method) -> &'static str
    ensures { result.now ≡ method_text method }
{
    match method {
        Method::Start => "start",
        Method::Stop => "stop",
        Method::Refresh => "refresh",
    }
}

/// The restarter's name, which is short for svc.startd.
fn restarter_text(restarter: &InstanceFmri) -> &str
    ensures { result.now ≡ restarter_text restarter.now }
{
    let name = restarter.print();
    if name == STARTD { "svc.startd" } else { name }
}

/// The name of the instance in its service.
fn instance_text(instance: &InstanceFmri) -> &str
    ensures { result.now ≡ instance_text instance.now }
{
    match instance.as_fmri().instance() {
        Some(name) => name,
        None => "",
    }
}

/// The text for a token, which is given by the byte after its `%`.
#[tactic(auto, unfolding(crate::specs::Tokens::token_text))]
pub(crate) fn token_text<'a>(
    restarter: &'a InstanceFmri,
    method: Method,
    instance: &'a InstanceFmri,
    token: u8,
) -> &'a str
    ensures { result.now ≡ token_text (names_of restarter.now method instance.now) token }
{
    match token {
        b'%' => "%",
        b'r' => restarter_text(restarter),
        b'm' => method_text(method),
        b's' => instance.as_fmri().service(),
        b'i' => instance_text(instance),
        b'f' => instance.print(),
        _ => "",
    }
}
