// A G line read back from the front of a text: what it says, and how many bytes it has.
#![tactic(auto)]

ghost use Rattle.std.specs.Prelude.{◌≡◌, ◌-◌, [], Some, None};
ghost use Rattle.plan.specs.Graph.{Edge};
ghost use Rattle.edge_line.specs.EdgeLine.{Begins, said_of};

// Its length counts byte 10 too.
#[derive(Clone, Copy)]
pub struct EdgeLine {
    pub consumer: usize,
    pub slot: usize,
    pub ordered: bool,
    pub length: usize,
}

// The value of a digit.
fn digit(b: u8) -> usize
    ensures { result ≡ b - 48 }
{
    usize::from(b.saturating_sub(b'0'))
}

// The G line at the front. Its consumer has one digit or two, its slot and its order have one. Only lines that `writing` has written are
// read, so no form is held to; what comes of other bytes is left free.
pub fn read_edge_line(text: &[u8]) -> Option<EdgeLine>
    ensures line { (d : Edge) → Begins d text.now → result ≡ Some (said_of d) }
    ensures none { text.now ≡ [] → result ≡ None }
{
    let [_, _, at2, at3, at4, at5, at6, at7, ..] = text else {
        return None;
    };
    if *at3 == b',' {
        return Some(EdgeLine {
            consumer: digit(*at2),
            slot: digit(*at4),
            ordered: *at6 == b'1',
            length: 8,
        });
    }
    Some(EdgeLine {
        consumer: digit(*at2) * 10 + digit(*at3),
        slot: digit(*at5),
        ordered: *at7 == b'1',
        length: 9,
    })
}
