// What takes an operation on rows in memory back.
ghost use Rattle.std.specs.Prelude.{◌≡◌};

use crate::body::Body;
use std::marker::Model;

/// What takes an operation back, which contracts see as an operation itself: it leaves that body, or none, at that kind and number.
#[derive(Drop)]
pub(crate) struct Back {
    kind: u8,
    no: u64,
    body: Option<Body>,
}

impl Model for Back {
    ghost use Rattle.tracker_keeper.specs.declared.row.RowOp.{RowOp};

    ghost Value = { RowOp };

    ghost use Rattle.tracker_keeper.specs.Rows.{op_leaving};

    ghost view = { λ b. op_leaving b.kind b.no b.body };
}

impl Back {
    ghost use Rattle.tracker_keeper.specs.Rows.{op_leaving};

    /// What leaves that body, or none, at that kind and number.
    pub(crate) fn leaving(kind: u8, no: u64, body: Option<Body>) -> Back
        ensures { result ≡ op_leaving kind no body }
    {
        Back { kind, no, body }
    }

    /// The kind, the number and the body.
    pub(crate) fn into_parts(self) -> (u8, u64, Option<Body>)
        ensures { self ≡ op_leaving result.0 result.1 result.2 }
    {
        let Back { kind, no, body } = self;
        (kind, no, body)
    }
}
