use crate::same::same;
use col_token::*;

#[test]
fn counts_lines(rt: HostRuntime) {
    for (given, wanted) in [
        ("", 0),
        ("\n", 1),
        ("a", 1),
        ("a\n", 1),
        ("a\n\nb", 3),
        ("\r", 1),
        ("a\r\nb\r", 2),
    ] {
        same(&rt, given, line_count(given.as_bytes()), wanted);
    }
}

#[test]
fn drops_one_return(rt: HostRuntime) {
    for (given, wanted) in [
        ("", ""),
        ("\r", ""),
        ("a\r", "a"),
        ("a\r\r", "a\r"),
        ("\ra", "\ra"),
    ] {
        same(&rt, given, content(given.as_bytes()), wanted.as_bytes());
    }
}

#[test]
fn tells_where_each_token_stands(rt: HostRuntime) {
    let mut tokens = Tokens::new(b"col\ta  b\r\n\r\n \t\n c\r");
    for (wanted, start, line) in [("col", 0, 1), ("a", 4, 1), ("b", 7, 1), ("c", 16, 4)] {
        let text = wanted.as_bytes();
        same(
            &rt,
            wanted,
            tokens.next(),
            Some(Token { text, start, line }),
        );
    }
    same(&rt, "the end", tokens.next(), None);
}
