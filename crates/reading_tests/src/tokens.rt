use asm_lex::{Kind, LexError, lex};
use std::test::Fail;

#[test]
fn tokens_of_texts(rt: HostRuntime) -> Result<(), Fail> {
    let rows: [(&str, &[(Kind, u32, u32)]); 9] = [
        (" \t\r\n", &[]),
        (
            "x_1:=Y",
            &[(Kind::Word, 0, 3), (Kind::Symbol, 3, 5), (Kind::Word, 5, 6)],
        ),
        (
            "$a_1+$b",
            &[
                (Kind::Variable, 0, 4),
                (Kind::Symbol, 4, 5),
                (Kind::Variable, 5, 7),
            ],
        ),
        (
            "2147483648 0042a",
            &[
                (Kind::Number, 0, 10),
                (Kind::Number, 11, 15),
                (Kind::Word, 15, 16),
            ],
        ),
        (
            "{1..3}",
            &[
                (Kind::Symbol, 0, 1),
                (Kind::Number, 1, 2),
                (Kind::Symbol, 2, 4),
                (Kind::Number, 4, 5),
                (Kind::Symbol, 5, 6),
            ],
        ),
        (
            ":==<=>->...",
            &[
                (Kind::Symbol, 0, 2),
                (Kind::Symbol, 2, 3),
                (Kind::Symbol, 3, 5),
                (Kind::Symbol, 5, 6),
                (Kind::Symbol, 6, 8),
                (Kind::Symbol, 8, 10),
                (Kind::Symbol, 10, 11),
            ],
        ),
        (
            "a//$ \u{e9} /*\nb/",
            &[
                (Kind::Word, 0, 1),
                (Kind::Word, 11, 12),
                (Kind::Symbol, 12, 13),
            ],
        ),
        ("/***/a", &[(Kind::Word, 5, 6)]),
        ("/*/ \u{e9}*\n*/b// the end", &[(Kind::Word, 10, 11)]),
    ];
    for (text, wanted) in rows.iter() {
        let tokens = lex(rt.alloc(), text.as_bytes())?;
        assert_eq!(rt; tokens.len(), wanted.len());
        for (token, row) in tokens.slice().iter().zip(wanted.iter()) {
            assert_eq!(rt; (token.kind, token.from, token.to), *row);
        }
    }
    let refused = [
        ("_a", LexError::BadByte(0)),
        ("a $1", LexError::BadByte(2)),
        ("a!b", LexError::BadByte(1)),
        ("a /*/", LexError::OpenComment(2)),
        ("/**/ /* * / \u{e9}", LexError::OpenComment(5)),
        ("1 2147483649", LexError::NumberTooBig(2)),
        ("x 99999999999999999999999999 _", LexError::NumberTooBig(2)),
    ];
    for (text, error) in refused.iter() {
        assert_eq!(rt; lex(rt.alloc(), text.as_bytes()).err(), Some(*error));
    }
    Ok(())
}
