//! Classes that a production asks for together.

ghost use Rattle.std.specs.Prelude.{◌≡◌, ◌∷◌, ◌++◌, [], map};
ghost use Rattle.asm_tree.specs.Language as language;
ghost use Rattle.asm_tree.specs.Terms as terms;
ghost use Rattle.asm_tree.specs.Words.{kind_of};
ghost use Rattle.asm_body.specs.Levels as levels;

use crate::chain::Chain;
use asm_tree::class::Class;

/// The names of functions; the words of scenarios are among them but in scripts.
pub fn functions(script: bool) -> &'static [Class]
    ensures { map kind_of result.now ≡ language.functions script }
{
    if script {
        &[Class::FunctionName]
    } else {
        &[
            Class::FunctionName,
            Class::Scenario,
            Class::Load,
            Class::Set,
            Class::Step,
            Class::Until,
            Class::Check,
            Class::Exec,
            Class::Begin,
            Class::End,
            Class::ExecBlock,
        ]
    }
}

pub fn domains() -> &'static [Class]
    ensures { map kind_of result.now ≡ language.domains }
{
    &[Class::CapitalName, Class::ElementName]
}

pub fn comparisons() -> &'static [Class]
    ensures { map kind_of result.now ≡ terms.comparisons }
{
    &[
        Class::Equal,
        Class::NotEqual,
        Class::Less,
        Class::LessEqual,
        Class::Greater,
        Class::GreaterEqual,
    ]
}

/// The names before one operand.
pub fn one_names() -> &'static [Class]
    ensures { map kind_of result.now ≡ terms.one_names }
{
    &[Class::Abs, Class::IsDef, Class::IsUndef]
}

/// The names before two operands.
pub fn two_names() -> &'static [Class]
    ensures { map kind_of result.now ≡ terms.two_names }
{
    &[
        Class::Iff,
        Class::Implies,
        Class::Or,
        Class::Xor,
        Class::And,
        Class::EqualName,
        Class::NotEqualName,
        Class::LessName,
        Class::LessEqualName,
        Class::GreaterName,
        Class::GreaterEqualName,
        Class::PlusName,
        Class::TimesName,
        Class::Mod,
        Class::Idiv,
        Class::Min,
        Class::Max,
    ]
}

/// The names of operators before their operands.
pub fn names() -> &'static [Class]
    ensures { map kind_of result.now ≡ levels.names }
{
    &[
        Class::Abs,
        Class::IsDef,
        Class::IsUndef,
        Class::Iff,
        Class::Implies,
        Class::Or,
        Class::Xor,
        Class::And,
        Class::EqualName,
        Class::NotEqualName,
        Class::LessName,
        Class::LessEqualName,
        Class::GreaterName,
        Class::GreaterEqualName,
        Class::PlusName,
        Class::TimesName,
        Class::Mod,
        Class::Idiv,
        Class::Min,
        Class::Max,
        Class::MinusName,
    ]
}

/// What terms of one token are.
pub fn leaves() -> &'static [Class]
    ensures { map kind_of result.now ≡ levels.leaves }
{
    &[
        Class::Number,
        Class::True,
        Class::False,
        Class::Undef,
        Class::Variable,
        Class::ElementName,
    ]
}

/// The operators of a chain.
pub fn operators(chain: Chain) -> &'static [Class]
    ensures { map kind_of result.now ≡ levels.operators chain }
{
    match chain {
        Chain::Equivalence => &[Class::Iff],
        Chain::Disjunction => &[Class::Or, Class::Xor],
        Chain::Conjunction => &[Class::And],
        Chain::Sum => &[Class::Plus, Class::Minus],
        Chain::Product => &[Class::Times, Class::Mod],
    }
}
