// The G lines that are examined, against what a paper has behind its P lines.
ghost use Rattle.std.specs.Prelude.{◌≡◌, List};
ghost use Rattle.plan.specs.Graph.{Edge};
ghost use Rattle.plan.specs.Lists.{same};
ghost use Rattle.edge_line.specs.EdgeLine.{LinesOf};
ghost use Rattle.marking.specs.Unmarked.{unmarked_lines};

use edge_line::read_edge_line;
use storage::removed::Removed;

// Are the bytes those of `edges`, but for the lines whose consumer was removed?
pub fn equals_examined(bytes: &[u8], edges: &[u8], removed: &Removed) -> bool
    requires { (ds : List Edge) × LinesOf ds edges.now }
    ensures { (ds : List Edge) → LinesOf ds edges.now → result ≡ same bytes.now (unmarked_lines removed.now ds) }
{
    let mut rest = bytes;
    let mut left = edges;
    while let Some(line) = read_edge_line(left) {
        let (front, behind) = left.split_at(line.length);
        left = behind;
        if removed.has(line.consumer) {
            continue;
        }
        let Some(more) = rest.strip_prefix(front) else {
            return false;
        };
        rest = more;
    }
    rest.is_empty()
}
