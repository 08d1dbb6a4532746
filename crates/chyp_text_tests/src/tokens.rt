use chyp_base::NoMemory;
use chyp_lex::{TokenKind, lex};

// A token's kind, place, length and value.
type Row = (TokenKind, u32, u32, u64);

#[derive(Clone, Copy)]
struct Case {
    text: &'static [u8],
    tokens: &'static [Row],
}

const CASES: [Case; 10] = [
    Case {
        text: b"f.g ->-",
        tokens: &[
            (TokenKind::Dotted, 0, 3, 0),
            (TokenKind::Arrow, 4, 2, 0),
            (TokenKind::Minus, 6, 1, 0),
        ],
    },
    Case {
        text: b"a. 18446744073709551616",
        tokens: &[
            (TokenKind::Ident, 0, 1, 0),
            (TokenKind::Bad, 1, 1, 0),
            (TokenKind::Bad, 3, 20, 0),
        ],
    },
    Case {
        text: b"0018446744073709551615",
        tokens: &[(TokenKind::Number, 0, 22, 18_446_744_073_709_551_615)],
    },
    Case {
        text: b"\xFF",
        tokens: &[(TokenKind::Bad, 0, 1, 0)],
    },
    Case {
        text: b"\xC3\xA9",
        tokens: &[(TokenKind::Ident, 0, 2, 0)],
    },
    Case {
        text: b"\xE2\x86\x92",
        tokens: &[(TokenKind::Bad, 0, 3, 0)],
    },
    Case {
        text: b"\xEF\xBB\xBF_",
        tokens: &[(TokenKind::Bad, 0, 3, 0), (TokenKind::Ident, 3, 1, 0)],
    },
    Case {
        text: b"#->\xFF\r#\nid0 # \n\tid.gen",
        tokens: &[(TokenKind::WordId0, 7, 3, 0), (TokenKind::Dotted, 15, 6, 0)],
    },
    Case {
        text: b"gen f: 2 -> 1",
        tokens: &[
            (TokenKind::WordGen, 0, 3, 0),
            (TokenKind::Ident, 4, 1, 0),
            (TokenKind::Colon, 5, 1, 0),
            (TokenKind::Number, 7, 1, 2),
            (TokenKind::Arrow, 9, 2, 0),
            (TokenKind::Number, 12, 1, 1),
        ],
    },
    Case {
        text: b"",
        tokens: &[],
    },
];

#[test]
fn cuts_texts_into_tokens(rt: HostRuntime) -> Result<(), NoMemory> {
    for case in CASES {
        let tokens = lex(rt.alloc(), case.text, b"")?;
        let rows: Vec<Row> = tokens
            .iter()
            .map(|token| (token.kind, token.start, token.len, token.value))
            .collect(rt.alloc())?;
        assert_eq!(rt; rows.as_slice(), case.tokens);
    }
    Ok(())
}

#[test]
fn knows_words_and_symbols(rt: HostRuntime) -> Result<(), NoMemory> {
    let kinds = [
        (b"let".as_slice(), TokenKind::WordLet),
        (b"rule", TokenKind::WordRule),
        (b"rewrite", TokenKind::WordRewrite),
        (b"import", TokenKind::WordImport),
        (b"show", TokenKind::WordShow),
        (b"type", TokenKind::WordType),
        (b"id", TokenKind::WordId),
        (b"sw", TokenKind::WordSw),
        (b"by", TokenKind::WordBy),
        (b"as", TokenKind::WordAs),
        (b"simp", TokenKind::WordSimp),
        (b"with", TokenKind::WordWith),
        (b"=", TokenKind::Equals),
        (b";", TokenKind::Semicolon),
        (b"*", TokenKind::Star),
        (b"(", TokenKind::LeftParenthesis),
        (b")", TokenKind::RightParenthesis),
        (b"[", TokenKind::LeftBracket),
        (b"]", TokenKind::RightBracket),
        (b",", TokenKind::Comma),
        (b"?", TokenKind::QuestionMark),
    ];
    for (text, kind) in kinds {
        let tokens = lex(rt.alloc(), text, b"")?;
        assert_eq!(rt; tokens.len(), 1);
        assert!(rt; tokens[0].kind == kind);
    }
    Ok(())
}
