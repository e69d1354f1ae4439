ghost use Rattle.smf_method.specs.Faults.{Gives};
ghost use Rattle.smf_method.specs.Methods.{IsReadBy, command_in, method_of, read_group};
ghost use Rattle.smf_method.specs.Tokens.{is_refused, names_of};
ghost use Rattle.smf_value.specs.Texts.{is_plain};
ghost use Rattle.std.specs.List.{list_all};
ghost use Rattle.std.specs.Option.{option_copied};
ghost use Rattle.std.specs.Prelude.{◌≡◌, IfOk, IfSome, true};

use crate::command::{Builtin, CommandText};
use crate::fault::MethodFault;
use crate::properties::{duration_of, ignore_of, timeout_in};
use crate::texts::method_text;
use crate::timeout::Timeout;
use crate::tokens::{fill, wrong_token};
use smf_contract::Method;
use smf_fmri::{InstanceFmri, Ordered};
use smf_state::{Duration, Ignore};
use smf_value::Group;
use std::alloc::{AllocError, Global};

/// A method as it is run: the tokens of its command are replaced.
#[derive(Drop)]
pub struct MethodCall {
    pub timeout: Option<Timeout>,
    pub command: CommandText,
}

/// All that an instance's groups say of a method, for one restarter and one instance.
#[derive(Drop)]
pub struct ReadMethod {
    pub call: MethodCall,
    pub duration: Duration,
    pub ignore: Ignore,
}

/// True if a command cannot be a method: a start that kills.
fn is_refused(method: Method, command: &CommandText) -> bool
    ensures { result ≡ is_refused method command.now }
{
    match method {
        Method::Start => matches!(command.builtin(), Some(Builtin::Kill)),
        Method::Stop => false,
        Method::Refresh => false,
    }
}

/// The command of a text with its tokens replaced, or none if the method may not be that.
pub(crate) fn command_in(
    alloc: Global,
    exec: &str,
    restarter: &InstanceFmri,
    method: Method,
    instance: &InstanceFmri,
) -> Result<Option<CommandText>, AllocError>
    requires { list_all is_plain exec.now ≡ true }
    ensures { IfOk result (λ c. c ≡ command_in (names_of restarter.now method instance.now) exec.now) }
{
    // Printing lets the proof know that both are names.
    let _restarter = restarter.print();
    let _instance = instance.print();
    let text = fill(alloc, exec.as_bytes(), restarter, method, instance)?;
    let command = CommandText::new(text);
    if is_refused(method, &command) {
        return Ok(None);
    }
    Ok(Some(command))
}

#[tactic(auto, unfolding(crate::specs::Methods::read_group))]
fn read_group(
    alloc: Global,
    group: &Group,
    startd: Option<&Group>,
    method: Method,
    restarter: &InstanceFmri,
    instance: &InstanceFmri,
) -> Result<Option<ReadMethod>, MethodFault>
    ensures { Gives result
        (read_group (names_of restarter.now method instance.now) group.now (option_copied startd.entry)) }
{
    let Some(exec) = group.text("exec") else {
        return Err(MethodFault::NoExec);
    };
    let Some(timeout) = timeout_in(group.find("timeout_seconds")) else {
        return Err(MethodFault::BadTimeout);
    };
    let exec = exec.as_str();
    if let Some(place) = wrong_token(exec.as_bytes()) {
        return Err(MethodFault::BadToken(place));
    }
    let Some(command) = command_in(alloc, exec, restarter, method, instance)? else {
        return Err(MethodFault::BadToken(0));
    };
    let Some(duration) = duration_of(startd) else {
        return Err(MethodFault::BadDuration);
    };
    let Some(ignore) = ignore_of(startd) else {
        return Err(MethodFault::BadIgnore);
    };
    let call = MethodCall { timeout, command };
    Ok(Some(ReadMethod {
        call,
        duration,
        ignore,
    }))
}

impl ReadMethod {
    /// The method of composed groups, or none if they have no group of its name.
    pub fn of(
        alloc: Global,
        composed: &Ordered<Group>,
        method: Method,
        restarter: &InstanceFmri,
        instance: &InstanceFmri,
    ) -> Result<Option<ReadMethod>, MethodFault>
        // It is the groups' definition, as that is called.
        ensures found { IfOk result
            (λ read. IfSome read (IsReadBy composed.now (names_of restarter.now method instance.now))) }
        // Which method it is, or why there is none.
        ensures exact { Gives result (method_of composed.now (names_of restarter.now method instance.now)) }
    {
        ReadMethod::read(alloc, composed, method, restarter, instance)
    }

    #[tactic(auto, unfolding(crate::specs::Methods::method_of))]
    fn read(
        alloc: Global,
        composed: &Ordered<Group>,
        method: Method,
        restarter: &InstanceFmri,
        instance: &InstanceFmri,
    ) -> Result<Option<ReadMethod>, MethodFault>
        ensures { Gives result (method_of composed.now (names_of restarter.now method instance.now)) }
    {
        let Some(group) = composed.get_text(method_text(method)) else {
            return Ok(None);
        };
        let startd = composed.get_text("startd");
        read_group(alloc, group, startd, method, restarter, instance)
    }
}

impl Clone for MethodCall {
    ghost is_clone = { λ s copy. copy ≡ s };

    fn clone(&self) -> Result<MethodCall, AllocError> {
        let command = self.command.clone()?;
        Ok(MethodCall {
            timeout: self.timeout,
            command,
        })
    }
}

impl Clone for ReadMethod {
    ghost is_clone = { λ s copy. copy ≡ s };

    fn clone(&self) -> Result<ReadMethod, AllocError> {
        let call = self.call.clone()?;
        Ok(ReadMethod {
            call,
            duration: self.duration,
            ignore: self.ignore,
        })
    }
}
