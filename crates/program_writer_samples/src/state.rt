// Changes states of the writer into states that no sequence of calls returns.
use program_lines::Line;
use writer_state::State;

// Returns a state with another message number, another mask or another mark at a level.
fn at_level(what: u8, k: usize, v: u64, mut s: State) -> State {
    match what {
        b'N' => {
            if let Some(number) = s.numbers.get_mut(k) {
                *number = v;
            }
        }
        b'K' => {
            if let Some(mask) = s.masks.get_mut(k) {
                *mask = v;
            }
        }
        _ => {
            if let Some(mark) = s.marks.get_mut(k) {
                *mark = v as usize;
            }
        }
    }
    s
}

// Returns a state with one part changed.
pub fn changed(what: u8, line: Line, s: State) -> State {
    let v = line.number(1);
    match what {
        b'L' => State {
            length: v as usize,
            ..s
        },
        b'S' => State {
            start: v as usize,
            ..s
        },
        b'O' => State {
            opened: v as usize,
            ..s
        },
        b'R' => State { revision: v, ..s },
        _ => at_level(what, v as usize, line.number(2), s),
    }
}
