// Calls on an arena alone.
use answers::Refusal;
use script::answer::Values;
use script::calls::ArenaCall;
use script::input::Command;

pub fn on_arena(
    call: ArenaCall,
    c: &Command,
    arena: &mut [u8],
    buffer: &mut [u8],
) -> Result<Values, Refusal> {
    let [first, second, third, ..] = c.numbers.map(|number| number as usize);
    match call {
        ArenaCall::Write => {
            arena::write(arena, first, c.name);
            Ok(Values::NONE)
        }
        ArenaCall::IsAt => Ok(Values::from(arena::is_at(arena, first, c.name))),
        ArenaCall::MoveBytes => {
            arena::move_bytes(arena, second, third, first);
            Ok(Values::NONE)
        }
        ArenaCall::CopyOut => { arena::copy(arena, first, second, buffer, third).map(Values::from) }
    }
}
