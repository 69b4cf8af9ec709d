// What is lent out of a stored line: its numbers, and its lists. Bytes: reading asks of lines that it has still to check, so each function
// asks of its line alone, which is less than Records and Steps do. A struct of a lent line would be made for each call, out of the same two
// facts that are two clauses here and where a line is handed on (`reading`, `ir_graph`, `writing`).
ghost use Rattle.std.specs.Prelude.{◌≡◌, ◌++◌, ◌<◌, ◌≤◌, length};
ghost use Rattle.storage.specs.Stored.{stored_expr, stored_step, StepFormed};
ghost use Rattle.storage.specs.Lines.{children_count, expr_numbers, step_numbers};

// The numbers of the E line that is stored as number i.
pub fn expr_numbers(exprs: &[u8; 2048], i: usize) -> &[u8]
    requires { (i < 128) × (children_count exprs.now i ≤ 8) }
    ensures are { result.now ≡ expr_numbers exprs.now i }
    ensures few { length result.now ≤ 12 }
{
    let count = usize::from(exprs[i * 16 + 12]);
    &exprs[i * 16..i * 16 + (4 + count)]
}

pub fn children_of(exprs: &[u8; 2048], i: usize) -> &[u8]
    requires { (i < 128) × (children_count exprs.now i ≤ 8) }
    ensures { result.now ≡ (stored_expr exprs.now i).children }
{
    &expr_numbers(exprs, i)[4..]
}

// The numbers of the P line that is stored as number i.
pub fn step_numbers(steps: &[u8; 1024], i: usize) -> &[u8]
    requires few { i < 32 }
    requires formed { StepFormed steps.now i }
    ensures are { result.now ≡ step_numbers steps.now i }
    ensures few { length result.now ≤ 31 }
{
    let n1 = usize::from(steps[i * 32 + 4]);
    let n2 = usize::from(steps[i * 32 + 5]);
    let n3 = usize::from(steps[i * 32 + 6]);
    &steps[i * 32..i * 32 + (7 + n1 + n2 + n3)]
}

pub fn inputs_of(steps: &[u8; 1024], i: usize) -> &[u8]
    requires few { i < 32 }
    requires formed { StepFormed steps.now i }
    ensures { result.now ≡ (stored_step steps.now i).inputs }
{
    let n1 = usize::from(steps[i * 32 + 4]);
    &step_numbers(steps, i)[7..7 + n1]
}

// The expressions that a step names: its n2 list and its n3 list, which stand side by side.
pub fn exprs_of(steps: &[u8; 1024], i: usize) -> &[u8]
    requires few { i < 32 }
    requires formed { StepFormed steps.now i }
    ensures { result.now ≡ (stored_step steps.now i).exprs ++ (stored_step steps.now i).aggs }
{
    let n1 = usize::from(steps[i * 32 + 4]);
    &step_numbers(steps, i)[7 + n1..]
}
