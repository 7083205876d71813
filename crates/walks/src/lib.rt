// The walk for endless types, over the tables of the names that a schema's slots hold: `messages` says which slots are
// messages, `first` where the names of each start and, one place on, end, and `parts` has the names.
#![tactic(auto)]

ghost use Rattle.std.specs.Prelude.{◌≡◌, ◌&&◌, ◌<◌, ◌^◌, length, get_or};
ghost use Rattle.findings.specs.Endless.{counted, entered, left};
ghost use Rattle.walks.specs.Walk.{Asked, PartWalked, SlotWalked, own_names, Countable, Counted};

use findings::RecursionState;

fn count_one(mut state: RecursionState) -> RecursionState
    requires { state.count < 2 ^ 32 }
    ensures { result ≡ counted state }
{
    state.count += 1;
    state
}

fn enter(mut state: RecursionState, slot: usize, joins: bool) -> RecursionState
    requires { slot < 512 }
    ensures { result ≡ entered slot joins state }
{
    state.visited[slot] = true;
    if joins {
        state.path[slot] = true;
    }
    state
}

fn leave(mut state: RecursionState, slot: usize, joins: bool) -> RecursionState
    requires { slot < 512 }
    ensures { result ≡ left slot joins state }
{
    if joins {
        state.path[slot] = false;
    }
    state
}

// A name: 2 * id + 1 where it stands bare, 2 * id where another type or a union holds it.
#[cycle(walk_slot_walk_type_for_recursion)]
fn walk_type_for_recursion(
    messages: &[bool],
    first: &[u16],
    parts: &[u16],
    part: u16,
    direct: bool,
    state: RecursionState,
) -> RecursionState
    requires { Asked messages.now first.now parts.now state (λ S. 0) }
    ensures { PartWalked messages.now first.now parts.now part direct state result }
{
    let bare = direct && part % 2 == 1;
    let id = usize::from(part / 2);
    if id >= 512 {
        return state;
    }
    // Two returns: the larger state would be copied twice more where both ways meet.
    if state.path[id] {
        if bare {
            return count_one(state);
        }
        return state;
    }
    if state.visited[id] {
        return state;
    }
    let joins = messages[id] && bare;
    let inside = enter(state, id, joins);
    let after = walk_slot(messages, first, parts, id, bare, inside);
    leave(after, id, joins)
}

// The names of a slot, in order.
#[cycle(walk_slot_walk_type_for_recursion)]
fn walk_slot(
    messages: &[bool],
    first: &[u16],
    parts: &[u16],
    slot: usize,
    direct: bool,
    state: RecursionState,
) -> RecursionState
    requires { Asked messages.now first.now parts.now state (own_names slot) × (slot < 512) }
    ensures { SlotWalked messages.now first.now parts.now slot direct state result }
{
    let mut after = state;
    // By index: that the names do not end before they start is not known, and a slice would ask it.
    for p in usize::from(first[slot])..usize::from(first[slot + 1]) {
        after = walk_type_for_recursion(messages, first, parts, parts[p], direct, after);
    }
    after
}

// How often the message in a slot holds itself. One without names is passed over.
pub fn count_recursion(messages: &[bool], first: &[u16], parts: &[u16], slot: usize) -> u64
    requires { Countable messages.now first.now parts.now slot }
    ensures { Counted messages.now first.now parts.now slot result }
{
    if first[slot + 1] <= first[slot] {
        return 0;
    }
    let mut path = [false; 512];
    path[slot] = true;
    let state = RecursionState {
        path,
        visited: [false; 512],
        count: 0,
    };
    let after = walk_slot(messages, first, parts, slot, true, state);
    after.count
}
