//! The first lines of seed 1. The draws (kind, user, token, how far behind it the other one comes,
//! amount) stand beside each line; they are worked out from the rule of the generator with numbers
//! of any size: `x = (x * 6364136223846793005 + 1442695040888963407) % 2**64`, and what is drawn
//! below `m` is `(x >> 33) % m`.
use amm_work::make;
use std::test::Fail;

const OPENING: [&str; 22] = [
    r#"["deposit","u0","AA",1000000000000]"#,
    r#"["deposit","u0","BB",1000000000000]"#,
    r#"["deposit","u0","CC",1000000000000]"#,
    r#"["deposit","u0","DD",1000000000000]"#,
    r#"["deposit","u1","AA",1000000000000]"#,
    r#"["deposit","u1","BB",1000000000000]"#,
    r#"["deposit","u1","CC",1000000000000]"#,
    r#"["deposit","u1","DD",1000000000000]"#,
    r#"["deposit","u2","AA",1000000000000]"#,
    r#"["deposit","u2","BB",1000000000000]"#,
    r#"["deposit","u2","CC",1000000000000]"#,
    r#"["deposit","u2","DD",1000000000000]"#,
    r#"["deposit","u3","AA",1000000000000]"#,
    r#"["deposit","u3","BB",1000000000000]"#,
    r#"["deposit","u3","CC",1000000000000]"#,
    r#"["deposit","u3","DD",1000000000000]"#,
    r#"["add","u0","AA","BB",10000000000,10000000000,0,0,"u0",4503599627370495]"#,
    r#"["add","u0","AA","CC",10000000000,10000000000,0,0,"u0",4503599627370495]"#,
    r#"["add","u0","AA","DD",10000000000,10000000000,0,0,"u0",4503599627370495]"#,
    r#"["add","u0","BB","CC",10000000000,10000000000,0,0,"u0",4503599627370495]"#,
    r#"["add","u0","BB","DD",10000000000,10000000000,0,0,"u0",4503599627370495]"#,
    r#"["add","u0","CC","DD",10000000000,10000000000,0,0,"u0",4503599627370495]"#,
];

const DRAWN: [&str; 29] = [
    // 22: 6, 1, 0, 0, 211035
    r#"["swapout","u1",["AA","BB"],211035,1000000000,"u1",4503599627370495]"#,
    // 23: 3, 2, 2, 0, 146747
    r#"["swapin","u2",["CC","DD"],146747,0,"u2",4503599627370495]"#,
    // 24: 11, 2, 0, 0, 87035
    r#"["time",24]"#,
    // 25: 12, 2, 3, 1, 429366
    r#"["flash","u2","BB/DD",429366,0,[["transfer","u2","BB","BB/DD",430798]]]"#,
    // 26: 11, 1, 2, 0, 492670
    r#"["time",26]"#,
    // 27: 0, 0, 0, 0, 775969
    r#"["swapin","u0",["AA","BB"],775969,0,"u0",4503599627370495]"#,
    // 28: 15, 2, 0, 2, 372495
    r#"["pool","AA/DD"]"#,
    // 29: 10, 2, 2, 1, 418590
    r#"["remove","u0","CC","AA",418590,0,0,"u0",4503599627370495]"#,
    // 30: 15, 0, 2, 1, 254862
    r#"["pool","AA/CC"]"#,
    // 31: 6, 0, 1, 2, 455395
    r#"["swapout","u0",["BB","AA"],455395,1000000000,"u0",4503599627370495]"#,
    // 32: 10, 0, 0, 1, 938462
    r#"["remove","u0","AA","CC",938462,0,0,"u0",4503599627370495]"#,
    // 33: 8, 2, 3, 1, 133831
    r#"["swapin","u2",["DD","BB","AA"],133831,0,"u2",4503599627370495]"#,
    // 34: 9, 2, 0, 2, 970152
    r#"["add","u2","AA","DD",970152,970152,0,0,"u2",4503599627370495]"#,
    // 35: 15, 3, 0, 0, 621480
    r#"["pool","AA/BB"]"#,
    // 36: 2, 1, 1, 2, 19976
    r#"["swapin","u1",["BB","AA"],19976,0,"u1",4503599627370495]"#,
    // 37: 4, 1, 2, 0, 25926
    r#"["swapin","u1",["CC","DD"],25926,0,"u1",4503599627370495]"#,
    // 38: 1, 3, 3, 2, 2643
    r#"["swapin","u3",["DD","CC"],2643,0,"u3",4503599627370495]"#,
    // 39: 1, 0, 3, 2, 932543
    r#"["swapin","u0",["DD","CC"],932543,0,"u0",4503599627370495]"#,
    // 40: 6, 0, 3, 2, 476930
    r#"["swapout","u0",["DD","CC"],476930,1000000000,"u0",4503599627370495]"#,
    // 41: 2, 1, 0, 0, 403041
    r#"["swapin","u1",["AA","BB"],403041,0,"u1",4503599627370495]"#,
    // 42: 9, 0, 2, 2, 200399
    r#"["add","u0","CC","BB",200399,200399,0,0,"u0",4503599627370495]"#,
    // 43: 13, 0, 3, 0, 239533
    r#"["transfer","u0","DD","u1",239533]"#,
    // 44: 10, 0, 3, 2, 668306
    r#"["remove","u0","DD","CC",668306,0,0,"u0",4503599627370495]"#,
    // 45: 9, 3, 0, 2, 6201
    r#"["add","u3","AA","DD",6201,6201,0,0,"u3",4503599627370495]"#,
    // 46: 6, 0, 3, 1, 355076
    r#"["swapout","u0",["DD","BB"],355076,1000000000,"u0",4503599627370495]"#,
    // 47: 1, 2, 0, 1, 585205
    r#"["swapin","u2",["AA","CC"],585205,0,"u2",4503599627370495]"#,
    // 48: 4, 1, 0, 0, 922367
    r#"["swapin","u1",["AA","BB"],922367,0,"u1",4503599627370495]"#,
    // 49: 6, 2, 3, 1, 41120
    r#"["swapout","u2",["DD","BB"],41120,1000000000,"u2",4503599627370495]"#,
    // 50: 14, 0, 2, 2, 400742
    r#"["balance","CC","u0"]"#,
];

fn bytes_of(rt: &HostRuntime, parts: &[&[&str]]) -> Result<Vec<u8>, Fail> {
    let mut bytes = Vec::new(rt.alloc());
    for part in parts {
        for line in *part {
            bytes.extend_from_slice(line.as_bytes())?;
            bytes.push(b'\n')?;
        }
    }
    Ok(bytes)
}

#[test]
fn makes_the_lines_of_a_seed(rt: HostRuntime) -> Result<(), Fail> {
    let opening = bytes_of(&rt, &[OPENING.as_slice()])?;
    let all = bytes_of(&rt, &[OPENING.as_slice(), DRAWN.as_slice()])?;
    assert_eq!(rt; make(rt.alloc(), 1, 22)?.as_slice(), opening.as_slice());
    assert_eq!(rt; make(rt.alloc(), 1, 51)?.as_slice(), all.as_slice());
    Ok(())
}

/// A split stands on each line whose number ends in 500, its certificate on the next.
#[test]
fn asks_for_a_split_and_its_certificate(rt: HostRuntime) -> Result<(), Fail> {
    let first = "\n[\"split\",\"AA\",\"BB\",1000500]\n[\"certificate\",1]\n";
    assert!(rt;
        make(rt.alloc(), 1, 502)?
            .as_slice()
            .ends_with(first.as_bytes())
    );
    let second = "\n[\"split\",\"AA\",\"BB\",1001500]\n[\"certificate\",2]\n";
    assert!(rt;
        make(rt.alloc(), 1, 1502)?
            .as_slice()
            .ends_with(second.as_bytes())
    );
    Ok(())
}
