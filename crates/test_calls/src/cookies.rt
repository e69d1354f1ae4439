//! Cookies of contracts.

use crate::answers::Answer;
use crate::words::split_two;
use smf_contract::{Cookie, CookieFault, Method};
use smf_fmri::read_count;
use smf_method::method_text;

/// Answers a call of cookies; whether it is one.
pub(crate) fn answer(out: &mut Answer, call: &str, text: &str) -> bool {
    match call {
        "cookie" => answer_pack(out, text),
        "unpack" => answer_unpack(out, text),
        _ => return false,
    }
    true
}

pub(crate) fn method_of(word: &str) -> Option<Method> {
    match word {
        "start" => Some(Method::Start),
        "stop" => Some(Method::Stop),
        "refresh" => Some(Method::Refresh),
        _ => None,
    }
}

/// `INSTANCE RUN METHOD`.
fn cookie_of(text: &str) -> Option<Cookie> {
    let (instance, run, method) = split_two(text);
    Some(Cookie {
        instance: read_count(instance)?,
        run: read_count(run)?,
        method: method_of(method)?,
    })
}

fn answer_pack(out: &mut Answer, text: &str) {
    match cookie_of(text) {
        Some(cookie) => put_bits(out, cookie.pack()),
        None => out.bad_line(),
    }
}

fn put_bits(out: &mut Answer, bits: Result<u64, CookieFault>) {
    if let Some(bits) = out.value_or_refusal(bits) {
        write!(out, "{bits}");
    }
}

fn answer_unpack(out: &mut Answer, text: &str) {
    match read_count(text) {
        Some(bits) => put_cookie(out, Cookie::unpack(bits)),
        None => out.bad_line(),
    }
}

fn put_cookie(out: &mut Answer, cookie: Option<Cookie>) {
    match cookie {
        None => out.put("none"),
        Some(cookie) => {
            let (instance, run, method) = (cookie.instance, cookie.run, method_text(cookie.method));
            write!(out, "{instance} {run} {method}");
        }
    }
}
