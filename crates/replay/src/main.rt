// A script of calls on standard input, made on the library one after the other, with an answer line for each.
#![tactic(auto)]

use script::session;
use script_calls::Sides;

fn main(rt: HostRuntime) {
    session::run_to_end(rt.stdin(), &mut Sides::new(), rt.stdout())
}
