//! A service manager that stays, over any desk, clock, children and journal. Turn by turn it answers requests, each of
//! which is a script. It lets children tell what happened to them, and lets methods time out. It marks for maintenance
//! what ends again and again, clears what is to be tried again, and tells by which signals contracts are ended.
//! Modules: `server` (the state between turns), `fault_texts` (why a turn failed), `turns` (a turn), `life` (from its
//! begin to its end); `law` (the laws of turns and of a life that goes on). `smf_watch` has what a turn watches, and the
//! desk and the clock.
#![tactic(auto)]

mod fault_texts;
mod law;
mod life;
mod server;
mod turns;

pub use law::{a_continued_life_agrees, turns_follow};
pub use life::{Life, MOST_TURNS, Unborn, Uncontinued, continue_over, stay_over};
pub use server::Server;
pub use smf_script::Leftover;
pub use smf_watch::{
    Chronicle, Desk, Ender, ItemCount, Noted, Onward, ServerInput, Size, Term, Timer, Troubles,
    Watch,
};
pub use turns::{Turned, turn};
