//! What contracts see of a dialect's table.
use builtin_tables::BuiltinDialect;

/// A dialect by what it says of its kinds, attributes and types. Each `BuiltinDialect` is one.
pub trait Summarized: BuiltinDialect {
    ghost use Rattle.interface_verifiers.specs.Summary.{DialectSummary};

    /// What the dialect says.
    ghost summary: { DialectSummary Self.OpKind Self.Attr Self.TypeKey };
}

impl<D: BuiltinDialect> Summarized for D {
    ghost summary = { record {
      names = D.op_text;
      interfaces = D.table;
      implements = D.op_has;
      segment_count = D.segment_count;
      layout = D.layout;
      callee_key = D.key_of_callee;
      callee_place = D.place_of_callee;
      callee_type_key = D.key_of_callee_type;
      held_identifier = D.held_identifier;
      held_type = D.held_type;
      held_sizes = D.held_sizes;
      type_of = D.type_of_attr;
      type_names = λ key. D.type_text (D.kind_of_type key);
      type_implements = D.type_has;
    } };
}
