ghost use Rattle.std.specs.Prelude.{◌≡◌, ◌∷◌, [], MatchOption};
ghost use Rattle.no_module.specs.Instructions.{exits_of, is_phi, is_terminator, labels_of, operands_of, types_of};
ghost use Rattle.no_module.specs.Left.{labels_left, operands_left, types_left};

use no_ir::{Op, Operand, Ty};

/// The operands of an instruction that are left, in order, while a loop takes them one by one.
#[derive(Clone, Copy)]
pub enum Operands<'a> {
    Empty,
    One(&'a Operand),
    Two(&'a Operand, &'a Operand),
    Three(&'a Operand, &'a Operand, &'a Operand),
    /// What a phi takes, each with its label.
    Pairs(&'a [(Operand, u32)]),
    /// Indices of a `getelementptr`, each with its width.
    Indices(&'a [(u8, Operand)]),
    /// Arguments of a call, each with its type.
    Arguments(&'a [(Ty, Operand)]),
    /// The base of a `getelementptr`, and its indices.
    Path(&'a Operand, &'a [(u8, Operand)]),
    /// The callee of a call, and its arguments.
    Call(&'a Operand, &'a [(Ty, Operand)]),
}

impl<'a> Operands<'a> {
    /// All operands of an instruction: the callee of a call, and what a phi takes, among them.
    pub fn of(op: &'a Op) -> Operands<'a>
        ensures { operands_left result ≡ operands_of op.now }
    {
        match op {
            Op::Binary(_, _, a, b) => Operands::Two(a, b),
            Op::Compare(_, _, a, b) => Operands::Two(a, b),
            Op::Cast(_, _, a, _) => Operands::One(a),
            Op::Freeze(_, a) => Operands::One(a),
            Op::Select(c, _, a, b) => Operands::Three(c, a, b),
            Op::Phi(_, pairs) => Operands::Pairs(pairs.as_slice()),
            Op::Alloca(_, None, _) => Operands::Empty,
            Op::Alloca(_, Some((_, count)), _) => Operands::One(count),
            Op::Load(_, _, a) => Operands::One(a),
            Op::Store(_, _, v, a) => Operands::Two(v, a),
            Op::Gep(_, a, indices) => Operands::Path(a, indices.as_slice()),
            Op::Call(_, callee, arguments) => Operands::Call(callee, arguments.as_slice()),
            Op::Br(_) => Operands::Empty,
            Op::CondBr(c, _, _) => Operands::One(c),
            Op::Switch(_, a, _, _) => Operands::One(a),
            Op::Ret(None) => Operands::Empty,
            Op::Ret(Some((_, value))) => Operands::One(value),
            Op::Unreachable => Operands::Empty,
        }
    }

    /// The first operand that is left, and those after it.
    pub fn split_first(self) -> Option<(&'a Operand, Operands<'a>)>
        ensures { MatchOption result (operands_left self.entry ≡ []) (λ p. operands_left self.entry ≡ p.0.now ∷ operands_left p.1) }
    {
        match self {
            Operands::Empty => None,
            Operands::One(a) => Some((a, Operands::Empty)),
            Operands::Two(a, b) => Some((a, Operands::One(b))),
            Operands::Three(a, b, c) => Some((a, Operands::Two(b, c))),
            Operands::Pairs([]) => None,
            Operands::Pairs([pair, more @ ..]) => Some((&pair.0, Operands::Pairs(more))),
            Operands::Indices([]) => None,
            Operands::Indices([index, more @ ..]) => Some((&index.1, Operands::Indices(more))),
            Operands::Arguments([]) => None,
            Operands::Arguments([argument, more @ ..]) => Some((
                &argument.1,
                Operands::Arguments(more),
            )),
            Operands::Path(base, indices) => Some((base, Operands::Indices(indices))),
            Operands::Call(callee, arguments) => Some((callee, Operands::Arguments(arguments))),
        }
    }
}

/// The labels of an instruction that are left, in order, while a loop takes them one by one.
#[derive(Clone, Copy)]
pub enum Labels<'a> {
    Empty,
    One(u32),
    Two(u32, u32),
    /// The labels that a phi takes operands from.
    Pairs(&'a [(Operand, u32)]),
    /// Cases of a switch, each with its number.
    Cases(&'a [(u64, u32)]),
    /// The default of a switch, and its cases.
    Switch(u32, &'a [(u64, u32)]),
}

impl<'a> Labels<'a> {
    /// All labels of an instruction: those that a phi takes operands from, and those that a terminator leads to.
    pub fn of(op: &'a Op) -> Labels<'a>
        ensures { labels_left result ≡ labels_of op.now }
    {
        match op {
            Op::Phi(_, pairs) => Labels::Pairs(pairs.as_slice()),
            Op::Br(l) => Labels::One(*l),
            Op::CondBr(_, l, k) => Labels::Two(*l, *k),
            Op::Switch(_, _, l, cases) => Labels::Switch(*l, cases.as_slice()),
            _ => Labels::Empty,
        }
    }

    /// The labels that an instruction leads to as a terminator.
    #[tactic(auto, unfolding(crate::specs::Instructions::exits_of))]
    pub fn exits(op: &'a Op) -> Labels<'a>
        ensures { labels_left result ≡ exits_of op.now }
    {
        match op {
            Op::Br(l) => Labels::One(*l),
            Op::CondBr(_, l, k) => Labels::Two(*l, *k),
            Op::Switch(_, _, l, cases) => Labels::Switch(*l, cases.as_slice()),
            _ => Labels::Empty,
        }
    }

    /// The first label that is left, and those after it.
    pub fn split_first(self) -> Option<(u32, Labels<'a>)>
        ensures { MatchOption result (labels_left self.entry ≡ []) (λ p. labels_left self.entry ≡ p.0 ∷ labels_left p.1) }
    {
        match self {
            Labels::Empty => None,
            Labels::One(l) => Some((l, Labels::Empty)),
            Labels::Two(l, k) => Some((l, Labels::One(k))),
            Labels::Pairs([]) => None,
            Labels::Pairs([pair, more @ ..]) => Some((pair.1, Labels::Pairs(more))),
            Labels::Cases([]) => None,
            Labels::Cases([case, more @ ..]) => Some((case.1, Labels::Cases(more))),
            Labels::Switch(l, cases) => Some((l, Labels::Cases(cases))),
        }
    }
}

/// The types of an instruction that are left, in order, while a loop takes them one by one.
#[derive(Clone, Copy)]
pub enum Types<'a> {
    Empty,
    One(&'a Ty),
    Two(&'a Ty, &'a Ty),
    /// The types of arguments of a call.
    Arguments(&'a [(Ty, Operand)]),
    /// The type of the result of a call, and those of its arguments.
    Call(&'a Ty, &'a [(Ty, Operand)]),
}

impl<'a> Types<'a> {
    /// The types that an instruction names. An integer's width alone is none.
    pub fn of(op: &'a Op) -> Types<'a>
        ensures { types_left result ≡ types_of op.now }
    {
        match op {
            Op::Compare(_, t, _, _) => Types::One(t),
            Op::Cast(_, t, _, u) => Types::Two(t, u),
            Op::Freeze(t, _) => Types::One(t),
            Op::Select(_, t, _, _) => Types::One(t),
            Op::Phi(t, _) => Types::One(t),
            Op::Alloca(t, _, _) => Types::One(t),
            Op::Load(_, t, _) => Types::One(t),
            Op::Store(_, t, _, _) => Types::One(t),
            Op::Gep(t, _, _) => Types::One(t),
            Op::Call(t, _, arguments) => Types::Call(t, arguments.as_slice()),
            Op::Ret(Some((t, _))) => Types::One(t),
            Op::Binary(_, _, _, _)
            | Op::Br(_)
            | Op::CondBr(_, _, _)
            | Op::Switch(_, _, _, _)
            | Op::Ret(None)
            | Op::Unreachable => Types::Empty,
        }
    }

    /// The first type that is left, and those after it.
    pub fn split_first(self) -> Option<(&'a Ty, Types<'a>)>
        ensures { MatchOption result (types_left self.entry ≡ []) (λ p. types_left self.entry ≡ p.0.now ∷ types_left p.1) }
    {
        match self {
            Types::Empty => None,
            Types::One(t) => Some((t, Types::Empty)),
            Types::Two(t, u) => Some((t, Types::One(u))),
            Types::Arguments([]) => None,
            Types::Arguments([argument, more @ ..]) => Some((&argument.0, Types::Arguments(more))),
            Types::Call(t, arguments) => Some((t, Types::Arguments(arguments))),
        }
    }
}

/// Whether an instruction is a phi.
pub fn is_phi(op: &Op) -> bool
    ensures { result ≡ is_phi op.now }
{
    matches!(op, Op::Phi(_, _))
}

/// Whether an instruction is a terminator.
pub fn is_terminator(op: &Op) -> bool
    ensures { result ≡ is_terminator op.now }
{
    match op {
        Op::Br(_) => true,
        Op::CondBr(_, _, _) => true,
        Op::Switch(_, _, _, _) => true,
        Op::Ret(_) => true,
        Op::Unreachable => true,
        _ => false,
    }
}
