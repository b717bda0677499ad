//! The import of rolls into books in memory and into tables: rolls with what is told of them, worked out by hand.
use crate::desk::unfolded;
use crate::empty::{Trial, in_both, in_memory};
use mx_book::Book;
use mx_office::Office;
use mx_report::{RollFault, RollFaultKind, RollReason, RollReport, import_roll};
use std::alloc::{AllocError, Global};
use std::process::Abort;
use std::test::Fail;

/// The member m with two holders and their purses.
const STANDING: &str =
    "kind,name,of,token\nmember,m,,00000000000000000000000000000002\nholder,ann,m,0000000000000000000000000000000a\nholder,bob,m,0000000000000000000000000000000b\npurse,p1,ann,\npurse,q1,bob,\n";

/// A second member with a holder and a purse, and a purse whose name is taken.
const SECOND: &str =
    "kind,name,of,token\nmember,m2,,0000000000000000000000000000002c\nholder,cy,m2,0000000000000000000000000000002d\npurse,p1,cy,\npurse,c1,cy,\n";

/// Rolls that come one after another into books in which nothing is, a line each, `ROLL -> WHAT IS TOLD`, in which `|`
/// stands for the end of a line. Any other line says nothing.
const ROLLS: &str = "
kind,name,of,token|member,m,,00000000000000000000000000000002|holder,ann,m,0000000000000000000000000000000a|holder,bob,m,0000000000000000000000000000000b|purse,p1,ann,|purse,q1,bob,| -> added 5|same 0|refused 0|
kind,name,of,token|member,m2,,0000000000000000000000000000002c|holder,cy,m2,0000000000000000000000000000002d|purse,p1,cy,|purse,c1,cy,| -> added 3|same 0|refused 1|row 3: name taken|
kind,name,of,token|member,m2,,0000000000000000000000000000002c|holder,cy,m2,0000000000000000000000000000002d|purse,p1,cy,|purse,c1,cy,| -> added 0|same 3|refused 1|row 3: name taken|
\u{feff}kind,name,of,token|purse,c1,cy,| -> added 0|same 1|refused 0|
# A record of three fields ends an import behind the rows before it, which stand.
kind,name,of,token|member,m3,,00000000000000000000000000000033|purse,p3,ann|purse,p4,ann,| -> not a roll, done 1|
kind,name,of,token|member,m3,,00000000000000000000000000000033|purse,p4,bob,| -> added 1|same 1|refused 0|
# Another header, and none.
kind,name,token,of|purse,p5,ann,| -> not a roll, done 0|
kind,name,of|purse,p5,ann| -> not a roll, done 0|
 -> not a roll, done 0|
kind,name,of,token| -> added 0|same 0|refused 0|
# Lines that end in CR LF, a last one that doesn't end, and a quoted field with a line end.
kind,name,of,token\r|purse,p5,ann,\r|purse,p5,ann, -> added 1|same 1|refused 0|
kind,name,of,token|purse,\"p|6\",ann,|\"purse\",\"p6\",\"ann\",\"\"| -> added 1|same 0|refused 1|row 1: bad row|
# Rows of no form: the kind, a name, a token, and fields that have to be empty.
kind,name,of,token|clerk,x,,00000000000000000000000000000044|member,X,,00000000000000000000000000000044|member,x,,0000000000000000000000000000044|member,x,m,00000000000000000000000000000044| -> added 0|same 0|refused 4|row 1: bad row|row 2: bad row|row 3: bad row|row 4: bad row|
kind,name,of,token|holder,x,,00000000000000000000000000000044|holder,x,m,|purse,x,ann,00000000000000000000000000000044|purse,,ann,| -> added 0|same 0|refused 4|row 1: bad row|row 2: bad row|row 3: bad row|row 4: bad row|
# Rows that the office refuses: tokens and names of others, and those that aren't there.
kind,name,of,token|member,m4,,0000000000000000000000000000000a|member,m,,00000000000000000000000000000044|holder,dan,m,0000000000000000000000000000000b|holder,ann,m2,0000000000000000000000000000000a| -> added 0|same 0|refused 4|row 1: token taken|row 2: name taken|row 3: token taken|row 4: name taken|
kind,name,of,token|holder,dan,m9,00000000000000000000000000000044|purse,p1,bob,|purse,p9,dan,| -> added 0|same 0|refused 3|row 1: no such member|row 2: name taken|row 3: no such holder|
# A purse that stands before its holder is refused, and added when the roll comes again.
kind,name,of,token|purse,d1,dan,|holder,dan,m,0000000000000000000000000000000D| -> added 1|same 0|refused 1|row 1: no such holder|
kind,name,of,token|purse,d1,dan,|holder,dan,m,0000000000000000000000000000000d| -> added 1|same 1|refused 0|
";

/// What is told of an import: its counts, and a line for each row that was refused.
fn report_lines(alloc: Global, report: &RollReport) -> Result<String, AllocError> {
    let mut lines = format!(in alloc;
        "added {}\nsame {}\nrefused {}\n",
        report.added,
        report.same,
        report.refused.len()
    )?;
    for row in &report.refused {
        let reason = match &row.reason {
            RollReason::BadRow => "bad row",
            RollReason::Refused(refusal) => refusal.text(),
        };
        let line = format!(in alloc; "row {}: {}\n", row.number, reason)?;
        lines.push_str(line.as_str())?;
    }
    Ok(lines)
}

/// What is told of an import that ended before its roll did.
fn fault_line(alloc: Global, fault: &RollFault) -> Result<String, AllocError> {
    let kind = match fault.kind {
        RollFaultKind::NotRoll => "not a roll",
        RollFaultKind::Memory => "memory",
        RollFaultKind::Store => "store",
    };
    format!(in alloc; "{}, done {}\n", kind, fault.done)
}

/// Imports a roll, and gives what is told of it.
fn lines_of(
    alloc: Global,
    office: &mut Office<impl Book>,
    roll: &[u8],
) -> Result<String, AllocError> {
    match import_roll(alloc, office, roll) {
        Ok(report) => report_lines(alloc, &report),
        Err(fault) => fault_line(alloc, &fault),
    }
}

/// Imports a roll, and asserts that this is told of it.
fn import_one(
    rt: &(impl Abort + AllocGlobal),
    office: &mut Office<impl Book>,
    roll: &str,
    told: &str,
) -> Result<(), Fail> {
    let roll = unfolded(rt.alloc(), roll, "\n")?;
    let lines = lines_of(rt.alloc(), office, roll.as_str().as_bytes())?;
    let told = unfolded(rt.alloc(), told, "\n")?;
    assert_eq!(rt; lines.as_str(), told.as_str());
    Ok(())
}

/// Rolls, a line each, that are imported one after another.
#[derive(Drop)]
struct Imported<'a>(&'a str);

impl Trial for Imported<'_> {
    fn try_in(
        &self,
        rt: &(impl Abort + AllocGlobal),
        office: &mut Office<impl Book>,
    ) -> Result<(), Fail> {
        for line in self.0.lines() {
            if let Some((roll, told)) = line.split_once(" -> ") {
                import_one(rt, office, roll, told)?;
            }
        }
        Ok(())
    }
}

#[test]
fn rolls_one_after_another(rt: HostRuntime) -> Result<(), Fail> {
    in_both(&rt, &Imported(ROLLS))
}

/// A roll with fields that aren't UTF-8, each of which makes a bad row.
#[derive(Drop)]
struct BadFields;

impl Trial for BadFields {
    fn try_in(
        &self,
        rt: &(impl Abort + AllocGlobal),
        office: &mut Office<impl Book>,
    ) -> Result<(), Fail> {
        let roll = b"kind,name,of,token\npurse,p\xff,ann,\n\xffurse,p2,ann,\npurse,p2,ann,\xc3\n";
        let lines = lines_of(rt.alloc(), office, roll)?;
        assert_eq!(rt;
            lines.as_str(),
            "added 0\nsame 0\nrefused 3\nrow 1: bad row\nrow 2: bad row\nrow 3: bad row\n"
        );
        Ok(())
    }
}

#[test]
fn a_field_that_is_no_text(rt: HostRuntime) -> Result<(), Fail> {
    in_memory(&rt, &BadFields)
}

/// The report of a roll that is imported, or imported again where there is no memory at first.
fn report_again(
    alloc: Global,
    office: &mut Office<impl Book>,
    roll: &str,
) -> Result<RollReport, RollFault> {
    match import_roll(alloc, office, roll.as_bytes()) {
        Err(fault) if matches!(fault.kind, RollFaultKind::Memory) => {
            import_roll(alloc, office, roll.as_bytes())
        }
        report => report,
    }
}

/// Imports a roll, again where there is no memory at first, and asserts how many of its rows stand and were refused.
fn import_grown(
    rt: &(impl Abort + AllocGlobal),
    office: &mut Office<impl Book>,
    roll: &str,
    rows: (u64, usize),
) -> Result<u64, Fail> {
    let report = report_again(rt.alloc(), office, roll)
        .ok()
        .ok_or("a fault")?;
    let stand = report.added.saturating_add(report.same);
    assert_eq!(rt; (stand, report.refused.len()), rows);
    Ok(report.added)
}

/// With the second import of a roll all of its rows stand, however far the first one came, and a third adds none.
#[derive(Drop)]
struct Grown;

impl Trial for Grown {
    fn try_in(
        &self,
        rt: &(impl Abort + AllocGlobal),
        office: &mut Office<impl Book>,
    ) -> Result<(), Fail> {
        import_grown(rt, office, STANDING, (5, 0))?;
        import_grown(rt, office, SECOND, (3, 1))?;
        import_grown(rt, office, SECOND, (3, 1))?;
        let added = import_grown(rt, office, SECOND, (3, 1))?;
        assert_eq!(rt; added, 0);
        Ok(())
    }
}

#[test]
fn rolls_with_a_growth_refused(rt: HostRuntime) -> Result<(), Fail> {
    in_memory(&rt, &Grown)
}
