// The line for each kind of answer, worked out by hand.
use crate::judging::judge;
use crate::report::write_answer;
use std::test::Fail;
use text::written;

const SHOP: &[u8] =
    b"shop=1\nfacts=1\nops=1\ntasks=0\nmethods=0\nstart=\nfirst=0\nshelf=5\nyes=\nno=\nadd=0\ndel=\n";

#[test]
fn lines(rt: HostRuntime) -> Result<(), Fail> {
    let rows: [(&[u8], &[u8], &[u8]); 9] = [
        (SHOP, b"shop=1\nrows=1\ndo=0\n", b"pass=1\n"),
        (SHOP, b"shop=1\nrows=0\n", b"fail=20,0\n"),
        (SHOP, b"shop=1\nrows=2\ndo=0\ndo=0\n", b"fail=16,2\n"),
        (SHOP, b"shop=2\nrows=0\n", b"fault=list,8,1,5\n"),
        (SHOP, b"shop=1\nrows=2001\n", b"fault=list,4,2,12\n"),
        (SHOP, b"shop=1\nrows=1\nby=0\n", b"fault=list,4,3,17\n"),
        (SHOP, b"shop=1\nrows=1\nxx=0\n", b"fault=list,2,3,14\n"),
        (b"shop=1\nfacts=0\n", b"", b"fault=shop,4,2,13\n"),
        (
            b"shop=1\n",
            b"shop=1\nrows=1\ndo=0\n",
            b"fault=shop,1,2,7\n",
        ),
    ];
    for (shop, list, line) in rows {
        let mut bytes = [0u8; 80];
        let count = write_answer(judge(rt.alloc(), shop, list), &mut bytes);
        assert!(rt; count.and_then(|count| written(count, &bytes)) == Some(line));
    }
    Ok(())
}
