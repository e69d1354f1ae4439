ghost use Rattle.smf_method.specs.Faults.{Gives};
ghost use Rattle.smf_method.specs.Methods.{call_of, define_by, definition_of};
ghost use Rattle.smf_method.specs.Tokens.{Replaces, names_of, wrong_token};
ghost use Rattle.std.specs.Option.{option_copied};
ghost use Rattle.std.specs.Prelude.{◌≡◌, IfOk, None};

use crate::call::{MethodCall, command_in};
use crate::command::CommandText;
use crate::fault::MethodFault;
use crate::properties::{duration_of, ignore_of, timeout_in};
use crate::texts::method_text;
use crate::timeout::Timeout;
use crate::tokens::wrong_token;
use smf_contract::Method;
use smf_fmri::{InstanceFmri, Ordered};
use smf_state::{Duration, Ignore};
use smf_value::Group;
use std::alloc::{AllocError, Global};
use std::marker::Model;

/// The definition of a method by groups. Its tokens are good and not replaced yet.
#[derive(Drop)]
pub struct MethodDefinition {
    method: Method,
    exec: CommandText,
    timeout: Option<Timeout>,
    duration: Duration,
    ignore: Ignore,
}

impl Model for MethodDefinition {
    ghost use Rattle.smf_method.specs.Tokens.{HasTokens};
    ghost use Rattle.smf_method.specs.Methods.{Definition};

    ghost Value = { Definition };

    ghost view = { λ d. record { method = d.method; exec = d.exec; timeout = d.timeout; duration = d.duration; ignore = d.ignore } };

    ghost invariant = { λ d. HasTokens d.exec };
}

#[tactic(auto, unfolding(crate::specs::Methods::define_by))]
fn define_by(
    alloc: Global,
    method: Method,
    group: &Group,
    startd: Option<&Group>,
) -> Result<Option<MethodDefinition>, MethodFault>
    ensures { Gives result (define_by method group.now (option_copied startd.entry)) }
{
    let Some(exec) = group.text("exec") else {
        return Err(MethodFault::NoExec);
    };
    let Some(timeout) = timeout_in(group.find("timeout_seconds")) else {
        return Err(MethodFault::BadTimeout);
    };
    if let Some(place) = wrong_token(exec.as_str().as_bytes()) {
        return Err(MethodFault::BadToken(place));
    }
    let Some(duration) = duration_of(startd) else {
        return Err(MethodFault::BadDuration);
    };
    let Some(ignore) = ignore_of(startd) else {
        return Err(MethodFault::BadIgnore);
    };
    let exec = CommandText::of_astring(alloc, exec)?;
    Ok(Some(MethodDefinition {
        method,
        exec,
        timeout,
        duration,
        ignore,
    }))
}

impl MethodDefinition {
    /// The definition of a method by composed groups, or none if they have no group of its name.
    #[tactic(auto, unfolding(crate::specs::Methods::definition_of))]
    pub fn of(
        alloc: Global,
        composed: &Ordered<Group>,
        method: Method,
    ) -> Result<Option<MethodDefinition>, MethodFault>
        ensures { Gives result (definition_of composed.now method) }
    {
        let Some(group) = composed.get_text(method_text(method)) else {
            return Ok(None);
        };
        define_by(alloc, method, group, composed.get_text("startd"))
    }

    /// The method as it is run by a restarter for an instance. `BadToken(0)`: a start that would be a kill.
    pub fn call(
        &self,
        alloc: Global,
        restarter: &InstanceFmri,
        instance: &InstanceFmri,
    ) -> Result<MethodCall, MethodFault>
        // The command is the definition's with its tokens replaced, and nothing else.
        ensures found { IfOk result
            (λ call. Replaces (names_of restarter.now self.now.method instance.now) self.now.exec call.command) }
        // Which method it is, or why there is none.
        ensures exact { Gives result (call_of self.now restarter.now instance.now) }
    {
        // Looking at the command lets the proof know that its tokens are good.
        let _exec = self.exec();
        self.make_call(alloc, restarter, instance)
    }

    fn make_call(
        &self,
        alloc: Global,
        restarter: &InstanceFmri,
        instance: &InstanceFmri,
    ) -> Result<MethodCall, MethodFault>
        ensures { Gives result (call_of self.now restarter.now instance.now) }
    {
        let exec = self.exec.as_str();
        match command_in(alloc, exec, restarter, self.method, instance)? {
            None => Err(MethodFault::BadToken(0)),
            Some(command) => Ok(MethodCall {
                timeout: self.timeout,
                command,
            }),
        }
    }

    pub fn method(&self) -> Method
        ensures { result ≡ self.now.method }
    {
        self.method
    }

    /// The command before its tokens are replaced, each of which is one.
    pub fn exec(&self) -> &CommandText
        ensures value { result.now ≡ self.now.exec }
        ensures checked { wrong_token 0 self.now.exec ≡ None }
    {
        &self.exec
    }

    pub fn timeout(&self) -> Option<Timeout>
        ensures { result ≡ self.now.timeout }
    {
        self.timeout
    }

    pub fn duration(&self) -> Duration
        ensures { result ≡ self.now.duration }
    {
        self.duration
    }

    pub fn ignore(&self) -> Ignore
        ensures { result ≡ self.now.ignore }
    {
        self.ignore
    }
}

impl Clone for MethodDefinition {
    ghost is_clone = { λ s copy. copy ≡ s };

    fn clone(&self) -> Result<MethodDefinition, AllocError> {
        let exec = self.exec.clone()?;
        Ok(MethodDefinition {
            method: self.method,
            exec,
            timeout: self.timeout,
            duration: self.duration,
            ignore: self.ignore,
        })
    }
}
