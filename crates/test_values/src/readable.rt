//! Expected lines are those of the manual of `xls_dump` and of RFC 8259, rows those of RFC 4180.

use std::alloc::AllocError;
use std::test::Fail;
use xls_data::{
    CellErrorType, Data, Dimensions, ExcelDateTime, ExcelDateTimeType, Number, SheetType,
    SheetVisible,
};
use xls_readable::{
    CellLines, Delimiter, Field, Form, Member, Property, Value, end_row, push_cell, push_custom,
    push_dates, push_error, push_exact_line, push_field, push_formula_line, push_json_line,
    push_line, push_merge, push_name, push_ok, push_property, push_ref, push_row, push_separator,
    push_sheet, push_text_line,
};

// The lines of a workbook's parts.
fn push_parts(form: Form, room: &mut String, text: &mut String) -> Result<(), AllocError> {
    push_dates(form, true, room, text)?;
    push_name(form, "Total", "A\tB", room, text)?;
    push_sheet(
        form,
        "Data",
        SheetType::WorkSheet,
        SheetVisible::VeryHidden,
        room,
        text,
    )?;
    push_formula_line(form, 2, 3, "A1*1.5", room, text)?;
    push_merge(form, Dimensions::new((0, 1), (2, 3)), room, text)?;
    let cells = Dimensions::new((0, 0), (4, 0));
    push_ref(form, "Data", (2, 3), "Log", cells, room, text)
}

// The lines of cells, one of each kind of value.
fn push_cells(form: Form, lines: &mut CellLines, text: &mut String) -> Result<(), AllocError> {
    let day = ExcelDateTime::new(Number::Whole(43831), ExcelDateTimeType::DateTime, false);
    let span = ExcelDateTime::new(Number::Hundredths(125), ExcelDateTimeType::TimeDelta, false);
    let cells = [
        ("int", Field::Int(-7)),
        ("float", Field::Number(Number::Hundredths(450))),
        ("float", Field::Number(Number::Bits(0x7FF0_0000_0000_0000))),
        ("text", Field::Text("é\"\n")),
        ("bool", Field::Truth(true)),
        ("date", Field::Moment(day)),
        ("span", Field::Moment(span)),
        ("date", Field::Text("2020-01-01")),
        ("span", Field::Text("P1D")),
        ("error", Field::Failure(CellErrorType::NA)),
    ];
    for (kind, field) in cells.iter() {
        push_cell(form, lines, (1, 0), kind, field, text)?;
    }
    Ok(())
}

// The other lines.
fn push_others(form: Form, room: &mut String, text: &mut String) -> Result<(), AllocError> {
    push_property(form, Property::LastModifiedBy, "Ann", room, text)?;
    push_custom(form, "Key", "v\\w", room, text)?;
    push_error(form, "bad", room, text)?;
    push_ok(form, room, text)?;
    let member = Member {
        name: "n",
        field: Field::Count(12),
    };
    push_line(form, "rows", &[member], room, text)
}

static LINES: [(Form, &str); 3] = [
    (
        Form::Text,
        "dates\t1904\nname\tTotal\tA\\tB\nsheet\tData\tworksheet\tveryhidden\nformula\t2\t3\tA1*1.5\nmerge\t0\t1\t2\t3\nref\tData\t2\t3\tLog\t0\t0\t4\t0\ncell\t1\t0\tint\t-7\ncell\t1\t0\tfloat\t4.5\ncell\t1\t0\tfloat\t0x7ff0000000000000\ncell\t1\t0\ttext\té\"\\n\ncell\t1\t0\tbool\ttrue\ncell\t1\t0\tdate\t2020-01-01\ncell\t1\t0\tspan\t30:00:00\ncell\t1\t0\tdate\t2020-01-01\ncell\t1\t0\tspan\tP1D\ncell\t1\t0\terror\t#N/A\nlast_modified_by\tAnn\ncustom\tKey\tv\\\\w\nerror\tbad\nok\nrows\t12\n",
    ),
    (
        Form::Json,
        "{\"line\":\"dates\",\"year\":\"1904\"}\n{\"line\":\"name\",\"name\":\"Total\",\"text\":\"A\\tB\"}\n{\"line\":\"sheet\",\"name\":\"Data\",\"kind\":\"worksheet\",\"visibility\":\"veryhidden\"}\n{\"line\":\"formula\",\"row\":2,\"column\":3,\"text\":\"A1*1.5\"}\n{\"line\":\"merge\",\"first_row\":0,\"first_column\":1,\"last_row\":2,\"last_column\":3}\n{\"line\":\"ref\",\"sheet\":\"Data\",\"row\":2,\"column\":3,\"cited_sheet\":\"Log\",\"first_row\":0,\"first_column\":0,\"last_row\":4,\"last_column\":0}\n{\"line\":\"cell\",\"row\":1,\"column\":0,\"kind\":\"int\",\"value\":-7}\n{\"line\":\"cell\",\"row\":1,\"column\":0,\"kind\":\"float\",\"value\":4.5}\n{\"line\":\"cell\",\"row\":1,\"column\":0,\"kind\":\"float\",\"value\":\"0x7ff0000000000000\"}\n{\"line\":\"cell\",\"row\":1,\"column\":0,\"kind\":\"text\",\"value\":\"é\\\"\\n\"}\n{\"line\":\"cell\",\"row\":1,\"column\":0,\"kind\":\"bool\",\"value\":true}\n{\"line\":\"cell\",\"row\":1,\"column\":0,\"kind\":\"date\",\"value\":\"2020-01-01\"}\n{\"line\":\"cell\",\"row\":1,\"column\":0,\"kind\":\"span\",\"value\":\"30:00:00\"}\n{\"line\":\"cell\",\"row\":1,\"column\":0,\"kind\":\"date\",\"value\":\"2020-01-01\"}\n{\"line\":\"cell\",\"row\":1,\"column\":0,\"kind\":\"span\",\"value\":\"P1D\"}\n{\"line\":\"cell\",\"row\":1,\"column\":0,\"kind\":\"error\",\"value\":\"#N/A\"}\n{\"line\":\"last_modified_by\",\"text\":\"Ann\"}\n{\"line\":\"custom\",\"name\":\"Key\",\"value\":\"v\\\\w\"}\n{\"line\":\"error\",\"text\":\"bad\"}\n{\"line\":\"ok\"}\n{\"line\":\"rows\",\"n\":12}\n",
    ),
    (
        Form::Exact,
        "dates\t1904\nname\tTotal\tA\\tB\nsheet\tData\tworksheet\tveryhidden\nformula\t2\t3\tA1*1.5\nmerge\t0\t1\t2\t3\nref\tData\t2\t3\tLog\t0\t0\t4\t0\ncell\t1\t0\tint\t-7\ncell\t1\t0\tfloat\t4.5\ncell\t1\t0\tfloat\t0x7ff0000000000000\ncell\t1\t0\ttext\té\"\\n\ncell\t1\t0\tbool\ttrue\ncell\t1\t0\tdate\t43831\ncell\t1\t0\tspan\t1.25\ncell\t1\t0\tdate\t2020-01-01\ncell\t1\t0\tspan\tP1D\ncell\t1\t0\terror\t#N/A\nlast_modified_by\tAnn\ncustom\tKey\tv\\\\w\nerror\tbad\nok\nrows\t12\n",
    ),
];

#[test]
fn writes_each_line_in_each_form(rt: HostRuntime) -> Result<(), Fail> {
    let mut room = String::new(rt.alloc());
    let mut text = String::new(rt.alloc());
    let mut lines = CellLines::new(rt.alloc());
    for (form, expected) in LINES.iter() {
        text.clear();
        push_parts(*form, &mut room, &mut text)?;
        push_cells(*form, &mut lines, &mut text)?;
        push_others(*form, &mut room, &mut text)?;
        assert!(rt; text.as_str() == *expected);
    }
    Ok(())
}

// Two rows by one call each, one by its fields, and two lines without a field.
fn push_rows(room: &mut String, text: &mut String) -> Result<(), AllocError> {
    let values = [
        Value::Text("a,\"b\""),
        Value::Float(Number::Hundredths(450)),
        Value::Truth(false),
        Value::Empty,
    ];
    push_row(&values, Delimiter::comma(), room, text)?;
    push_row(&[], Delimiter::comma(), room, text)?;
    let start = text.len();
    push_field(&Value::of(&Data::Int(7)), Delimiter::comma(), room, text)?;
    push_separator(Delimiter::comma(), text)?;
    push_field(&Value::Text("b;c"), Delimiter::comma(), room, text)?;
    end_row(start, text)?;
    push_text_line("end", &[], room, text)?;
    push_json_line("end", &[], room, text)?;
    push_exact_line("end", &[], text)
}

#[test]
fn writes_rows_of_csv(rt: HostRuntime) -> Result<(), Fail> {
    let mut room = String::new(rt.alloc());
    let mut text = String::new(rt.alloc());
    push_rows(&mut room, &mut text)?;
    assert!(rt;
        text.as_str() == "\"a,\"\"b\"\"\",4.5,FALSE,\n\"\"\n7,b;c\nend\n{\"line\":\"end\"}\nend\n"
    );
    if let Some(semicolon) = Delimiter::new(b';') {
        text.clear();
        push_row(
            &[Value::Text("1,5"), Value::Text("a;b")],
            semicolon,
            &mut room,
            &mut text,
        )?;
    }
    assert!(rt; text.as_str() == "1,5;\"a;b\"\n");
    assert!(rt; Delimiter::new(b'"').is_none());
    Ok(())
}
