// What a query says. The parts are plain data, which anyone may build; a whole query is made by `parse` alone.
ghost use Rattle.std.specs.Prelude.{◌≡◌, option_map};
ghost use Rattle.jql_syntax.specs.View.{view as expr_view, unboxed};
ghost use Rattle.jql_syntax.specs.Fault.{IsWritten};

use field_values::{Sequence, Text};
use std::marker::Model;

/// A field, as a query names it.
#[derive(Drop)]
pub enum Field {
    Named(Text),
    /// The number of an own field, in a query from 10000 to 19999.
    Custom(u32),
}

/// A function's name, and its argument.
#[derive(Drop)]
pub struct Call {
    pub name: Text,
    pub argument: Option<Text>,
}

/// A text or a call. A date is one too, and in a query its text is a date literal or a period.
pub enum Value {
    Text(Text),
    Call(Call),
}

// Written by hand, so that whoever lets one go makes one call, and its proof takes one step there.
impl Drop for Value {
    fn drop(self) {
        match self {
            Value::Text(_) | Value::Call(_) => {}
        }
    }
}

/// What a field is compared with.
pub enum Item {
    Value(Value),
    Empty,
}

// Written by hand, so that whoever lets one go makes one call, and its proof takes one step there.
impl Drop for Item {
    fn drop(self) {
        match self {
            Item::Value(_) | Item::Empty => {}
        }
    }
}

/// What stands behind IN: a list of items, in a query at least one, or a call.
#[derive(Drop)]
pub enum Members {
    Items(Sequence<Item>),
    Call(Call),
}

/// What stands behind BY, FROM and TO: one item, or a list in parentheses, in a query of at least one. In a query BY has no `Empty`.
#[derive(Drop)]
pub enum Choice {
    One(Item),
    Several(Sequence<Item>),
}

/// What is asked of a change's moment or its author.
pub enum Predicate {
    After(Value),
    Before(Value),
    On(Value),
    During(Value, Value),
    By(Choice),
}

// Written by hand, so that whoever lets one go makes one call, and its proof takes one step there.
impl Drop for Predicate {
    fn drop(self) {
        match self {
            Predicate::After(_)
            | Predicate::Before(_)
            | Predicate::On(_)
            | Predicate::During(_, _)
            | Predicate::By(_) => {}
        }
    }
}

/// What is asked of a change.
pub enum Aspect {
    Predicate(Predicate),
    From(Choice),
    To(Choice),
}

// Written by hand, so that whoever lets one go makes one call, and its proof takes one step there.
impl Drop for Aspect {
    fn drop(self) {
        match self {
            Aspect::Predicate(_) | Aspect::From(_) | Aspect::To(_) => {}
        }
    }
}

/// The signs of comparisons that EMPTY has no place in.
#[derive(Clone, Copy, PartialEq, Eq)]
pub enum Comparison {
    Greater,
    GreaterOrEqual,
    Less,
    LessOrEqual,
    Contains,
    Lacks,
}

/// What is asked of a field.
#[derive(Drop)]
pub enum Test {
    Equals(Item),
    NotEquals(Item),
    Compares(Comparison, Value),
    In(Members),
    NotIn(Members),
    IsEmpty,
    IsNotEmpty,
    Was(Item, Sequence<Predicate>),
    WasNot(Item, Sequence<Predicate>),
    WasIn(Members, Sequence<Predicate>),
    WasNotIn(Members, Sequence<Predicate>),
    Changed(Sequence<Aspect>),
}

/// A test of one field.
#[derive(Drop)]
pub struct Leaf {
    pub field: Field,
    pub test: Test,
}

/// A condition. In a query `All` and `Any` hold two or more, in the text's order.
#[derive(Drop)]
pub enum Expr {
    Leaf(Leaf),
    Not(Box<Expr>),
    All(Vec<Expr>),
    Any(Vec<Expr>),
}

/// The way of a sort key; `Ascending` where the text names none.
#[derive(Clone, Copy, PartialEq, Eq)]
pub enum Direction {
    Ascending,
    Descending,
}

/// A field that issues are sorted by.
pub struct SortKey {
    pub field: Field,
    pub direction: Direction,
}

// Written by hand, so that whoever lets one go makes one call, and its proof takes one step there.
impl Drop for SortKey {
    fn drop(self) {
        let SortKey {
            field: _,
            direction: _,
        } = self;
    }
}

/// A query: its condition, where it has one, and its sort keys. Only `parse` makes one, and it is what some text says.
pub struct Query {
    // In a box, so that little is done where a query is let go.
    condition: Option<Box<Expr>>,
    order: Sequence<SortKey>,
}

// Written by hand, so that whoever lets one go makes one call, and its proof takes one step there.
impl Drop for Query {
    fn drop(self) {
        let Query {
            condition: _,
            order: _,
        } = self;
    }
}

impl Model for Query {
    ghost use Rattle.std.specs.Prelude.{Option, List};
    ghost use Rattle.jql_syntax.specs.declared.query.Expr.{Expr as TheExpr};
    ghost use Rattle.jql_syntax.specs.declared.query.SortKey.{SortKey as TheSortKey};
    ghost use Rattle.jql_syntax.specs.contracts.query.Expr as e;
    ghost use Rattle.jql_syntax.specs.contracts.query.SortKey as k;
    ghost use Rattle.std.specs.Coded.{codes};

    ghost Value = { Option TheExpr × List TheSortKey };

    ghost coded = { Prim.hlevel (codes, e.the_row.coded, k.the_row.coded) };

    ghost use Rattle.jql_syntax.specs.View.{unboxed};

    ghost view = { λ q. (unboxed q.condition, q.order) };

    ghost use Rattle.std.specs.Prelude.{option_map};
    ghost use Rattle.jql_syntax.specs.View.{view as expr_view};
    ghost use Rattle.jql_syntax.specs.Fault.{IsWritten};

    ghost invariant = { λ q. IsWritten (option_map expr_view (unboxed q.condition)) q.order };
}

impl Query {
    /// The query of this condition and these sort keys.
    pub(crate) fn new(condition: Option<Box<Expr>>, order: Sequence<SortKey>) -> Query
        requires { IsWritten (option_map expr_view (unboxed condition)) order }
        ensures { result ≡ (unboxed condition, order) }
    {
        Query { condition, order }
    }

    /// The condition.
    pub fn condition(&self) -> Option<&Expr>
        ensures seen { option_map (λ x. x.now) result ≡ self.now.0 }
        // Some text is the query.
        ensures written { IsWritten (option_map expr_view self.now.0) self.now.1 }
    {
        match &self.condition {
            Some(expr) => Some(expr),
            None => None,
        }
    }

    /// The sort keys.
    pub fn order(&self) -> &[SortKey]
        ensures { result.now ≡ self.now.1 }
    {
        self.order.as_slice()
    }
}
