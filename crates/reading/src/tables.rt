// What each kind of line may have: the tables of document 01 (refusal 4).
ghost use Rattle.std.specs.Prelude.{◌≡◌, true, ◌&&◌, ◌+◌, ◌≤◌, ◌<◌, leb, get_or};
ghost use Rattle.plan.specs.Kinds.{aexpr_number, ir_number};
ghost use Rattle.reading.specs.Tables.{row, expr_kind_fits, expr_line_fits, between, step_row, within, step_kind_line_fits, step_line_fits, FewEntries};

use plan::aexpr::AExpr;
use plan::ir::IR;

// The fewest and the most entries of a list. The library's RangeInclusive is no Copy, and has a third field, which says that it is exhausted.
#[derive(Clone, Copy)]
pub struct Range {
    pub least: u8,
    pub most: u8,
}

impl Range {
    fn has(self, n: usize) -> bool
        ensures { result ≡ within n self }
    {
        (usize::from(self.least)..=usize::from(self.most)).contains(&n)
    }
}

fn between(least: u8, most: u8) -> Range
    ensures { result ≡ between least most }
{
    Range { least, most }
}

// What a kind of expression may have: so many children, and this option at the most.
#[derive(Clone, Copy)]
pub struct ExprRow {
    pub children: Range,
    pub option: u8,
}

fn expr(children: Range, option: u8) -> ExprRow
    ensures { result ≡ record { children = children; option = option } }
{
    ExprRow { children, option }
}

#[tactic(auto, unfolding(crate::specs::Tables::row, plan::specs::Sheet::expr_table))]
pub fn expr_row(kind: AExpr) -> ExprRow
    ensures { result ≡ row (aexpr_number kind) }
{
    match kind {
        AExpr::Column => expr(between(0, 0), 0),
        AExpr::Literal => expr(between(0, 0), 0),
        AExpr::Element => expr(between(0, 0), 0),
        AExpr::StructField => expr(between(0, 0), 0),
        AExpr::Len => expr(between(0, 0), 0),
        AExpr::BinaryExpr => expr(between(2, 2), 0),
        AExpr::Ternary => expr(between(3, 3), 0),
        AExpr::Cast => expr(between(1, 1), 0),
        AExpr::Explode => expr(between(1, 1), 0),
        AExpr::Sort => expr(between(1, 1), 0),
        AExpr::SortBy => expr(between(1, 8), 1),
        AExpr::Filter => expr(between(2, 2), 0),
        AExpr::Gather => expr(between(2, 2), 1),
        AExpr::Slice => expr(between(3, 3), 0),
        AExpr::Eval => expr(between(2, 2), 1),
        AExpr::StructEval => expr(between(1, 8), 0),
        AExpr::Over => expr(between(1, 8), 1),
        AExpr::Rolling => expr(between(2, 2), 0),
        AExpr::MinBy => expr(between(2, 2), 0),
        AExpr::Function => expr(between(0, 8), 63),
        AExpr::AnonymousAgg => expr(between(0, 8), 0),
        AExpr::First => expr(between(1, 1), 0),
        AExpr::Min => expr(between(1, 1), 0),
        AExpr::Implode => expr(between(1, 1), 1),
        AExpr::AggGroups => expr(between(1, 1), 0),
    }
}

// By its kind. An Over with an order_by has two children or more.
#[tactic(auto, unfolding(crate::specs::Tables::expr_kind_fits))]
fn expr_kind_fits(kind: AExpr, option: u8, count: usize) -> bool
    ensures { result ≡ expr_kind_fits (aexpr_number kind) option count }
{
    let row = expr_row(kind);
    option <= row.option
        && row.children.has(count)
        && (kind != AExpr::Over || option != 1 || 2 <= count)
}

// An E line's numbers, with the count of its children.
pub fn expr_fits(v: &[u8; 32], count: usize) -> bool
    ensures { (result ≡ expr_line_fits v.now count) × (result ≡ true → count ≤ 8) }
{
    let [kind, scalar, length_preserving, option, ..] = *v;
    let Ok(kind) = AExpr::try_from(kind) else {
        return false;
    };
    scalar <= 1 && length_preserving <= 1 && expr_kind_fits(kind, option, count)
}

// What a kind of step may have: its largest options, how many inputs and expressions, and the most agg entries.
#[derive(Clone, Copy)]
pub struct StepRow {
    pub most_a: u8,
    pub most_b: u8,
    pub most_c: u8,
    pub inputs: Range,
    pub exprs: Range,
    pub most_aggs: u8,
}

// The options' largest, then the lists: inputs, expressions, agg entries.
fn step(most_a: u8, most_b: u8, most_c: u8, inputs: Range, exprs: Range, most_aggs: u8) -> StepRow
    ensures { result ≡ record { most_a = most_a; most_b = most_b; most_c = most_c; inputs = inputs; exprs = exprs; most_aggs = most_aggs } }
{
    StepRow {
        most_a,
        most_b,
        most_c,
        inputs,
        exprs,
        most_aggs,
    }
}

#[tactic(auto, unfolding(crate::specs::Tables::step_row, crate::specs::Tables::most_a, crate::specs::Tables::most_b, crate::specs::Tables::most_c, crate::specs::Tables::inputs, crate::specs::Tables::exprs, crate::specs::Tables::most_aggs, plan::specs::Sheet::step_table))]
pub fn step_row(kind: IR) -> StepRow
    ensures { result ≡ step_row (ir_number kind) }
{
    match kind {
        IR::Scan => step(0, 0, 0, between(0, 0), between(0, 0), 0),
        IR::UnoptimizedDispatch => step(0, 0, 0, between(0, 8), between(0, 0), 0),
        IR::Sink => step(1, 1, 0, between(1, 1), between(0, 8), 0),
        IR::Select => step(0, 0, 0, between(1, 1), between(0, 8), 0),
        IR::HStack => step(255, 0, 0, between(1, 1), between(0, 8), 0),
        IR::Sort => step(1, 1, 0, between(1, 1), between(0, 8), 0),
        IR::Filter => step(0, 0, 0, between(1, 1), between(1, 1), 0),
        IR::GroupBy => step(1, 7, 0, between(1, 1), between(0, 8), 8),
        IR::Distinct => step(1, 1, 3, between(1, 1), between(0, 0), 0),
        IR::Join => step(3, 4, 0, between(2, 2), between(0, 8), 8),
        IR::Gather => step(0, 0, 0, between(2, 2), between(0, 0), 0),
        IR::Union => step(1, 1, 0, between(0, 8), between(0, 0), 0),
        IR::MergeSorted => step(1, 0, 0, between(2, 2), between(0, 0), 0),
        IR::MapFunction => step(7, 0, 0, between(1, 1), between(0, 0), 0),
        IR::HConcat => step(0, 0, 0, between(0, 8), between(0, 0), 0),
        IR::Slice => step(0, 0, 0, between(1, 1), between(0, 0), 0),
        IR::ExtContext => step(0, 0, 0, between(1, 8), between(0, 0), 0),
        IR::SimpleProjection => step(0, 0, 0, between(1, 1), between(0, 0), 0),
        IR::Cache => step(255, 0, 0, between(1, 1), between(0, 0), 0),
    }
}

fn options_fit(row: StepRow, a: u8, b: u8, c: u8) -> bool
    ensures { result ≡ (leb a row.most_a && leb b row.most_b && leb c row.most_c) }
{
    a <= row.most_a && b <= row.most_b && c <= row.most_c
}

fn lists_fit(row: StepRow, n1: u8, n2: u8, n3: u8) -> bool
    ensures { result ≡ (within n1 row.inputs && within n2 row.exprs && leb n3 row.most_aggs) }
{
    row.inputs.has(usize::from(n1)) && row.exprs.has(usize::from(n2)) && n3 <= row.most_aggs
}

// By its kind. A Sink that is not partitioned has no expression.
#[tactic(auto, unfolding(crate::specs::Tables::step_kind_fits))]
fn step_kind_fits(kind: IR, v: &[u8; 32]) -> bool
    ensures { result ≡ step_kind_line_fits (ir_number kind) v.now }
{
    let [_, a, b, c, n1, n2, n3, ..] = *v;
    let row = step_row(kind);
    options_fit(row, a, b, c)
        && lists_fit(row, n1, n2, n3)
        && (kind != IR::Sink || b != 0 || n2 == 0)
}

// A P line's numbers, with the count of all of them.
pub fn step_fits(v: &[u8; 32], count: usize) -> bool
    ensures { (result ≡ step_line_fits v.now count) × (result ≡ true → FewEntries (get_or v.now 4 0) (get_or v.now 5 0) (get_or v.now 6 0)) }
{
    let [kind, _, _, _, n1, n2, n3, ..] = *v;
    let Ok(kind) = IR::try_from(kind) else {
        return false;
    };
    count == 7 + usize::from(n1) + usize::from(n2) + usize::from(n3) && step_kind_fits(kind, v)
}
