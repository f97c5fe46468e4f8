//! Known values, and each public call once with ample memory.

use std::alloc::{AllocError, Global};
use std::collections::HashMap;
use std::process::Abort;
use std::test::Fail;
use xls_data::*;

// The texts of exact values: of hundredths, of the doubles at the ends of what is a whole number, and
// of two doubles over 100.
static NUMBERS: [(Number, &str); 16] = [
    (Number::Hundredths(-5), "-0.05"),
    (Number::Hundredths(150), "1.5"),
    (Number::Hundredths(100), "1"),
    (Number::Hundredths(12345), "123.45"),
    (Number::Hundredths(-100), "-1"),
    (Number::Hundredths(0), "0"),
    (Number::Bits(0x8000000000000000), "-0"),
    (Number::Bits(0x433fffffffffffff), "9007199254740991"),
    (Number::Bits(0x4340000000000000), "0x4340000000000000"),
    (Number::Bits(0x4012000000000000), "0x4012000000000000"),
    (Number::Bits(0xc008000000000000), "-3"),
    (Number::Bits(0), "0"),
    (Number::BitsOver100(0x4059000000000000), "1"),
    (
        Number::BitsOver100(0x4004000000000000),
        "0x4004000000000000/100",
    ),
    (Number::BitsOver100(0x8000000000000000), "-0"),
    (Number::Whole(-17), "-17"),
];

#[test]
fn prints_numbers_exactly(rt: HostRuntime) -> Result<(), Fail> {
    for (number, text) in NUMBERS.iter() {
        let printed = number.to_string(rt.alloc())?;
        assert_eq!(rt; printed.as_str(), *text);
    }
    Ok(())
}

// The double 2.5 is 4004000000000000, 1e300 is 7e37e43c8800759c, infinity 7ff0000000000000.
static CUTS: [(Number, i64, Option<i64>); 9] = [
    (Number::Whole(-7), -7, Some(-7)),
    (Number::Hundredths(-199), -1, Some(-1)),
    (Number::Hundredths(199), 1, Some(1)),
    (Number::Bits(0x4004000000000000), 2, Some(2)),
    (Number::Bits(0xc004000000000000), -2, Some(-2)),
    (Number::BitsOver100(0x4069000000000000), 2, Some(2)),
    (Number::Bits(0x7e37e43c8800759c), i64::MAX, None),
    (Number::Bits(0x7ff0000000000000), i64::MAX, None),
    (Number::BitsOver100(0x7ff8000000000000), 0, None),
];

#[test]
fn cuts_numbers_toward_zero(rt: HostRuntime) {
    for (number, cut, checked) in CUTS.iter() {
        assert_eq!(rt; (number.trunc(), number.trunc_checked()), (*cut, *checked));
    }
}

// The calendar, with the day that the 1900 system has and the calendar lacks.
static DAYS: [(u64, bool, (u16, u8, u8)); 12] = [
    (0, false, (1899, 12, 31)),
    (59, false, (1900, 2, 28)),
    (60, false, (1900, 2, 29)),
    (61, false, (1900, 3, 1)),
    (366, false, (1900, 12, 31)),
    (2958465, false, (9999, 12, 31)),
    (2958466, false, (9999, 12, 31)),
    (u64::MAX, false, (9999, 12, 31)),
    (0, true, (1904, 1, 1)),
    (60, true, (1904, 3, 1)),
    (2957003, true, (9999, 12, 31)),
    (2957004, true, (9999, 12, 31)),
];

#[test]
fn gives_the_calendar_dates_of_serial_days(rt: HostRuntime) {
    for (day, is_1904, date) in DAYS.iter() {
        assert_eq!(rt; ymd_of_serial_day(*day, *is_1904), *date);
    }
}

// Formats of calamine's own tests, and their classes.
static FORMATS: [(&str, CellFormat); 28] = [
    ("DD/MM/YY", CellFormat::DateTime),
    ("m\"M\"d\"D\";@", CellFormat::DateTime),
    (
        "[$-404]e\"\\xfc\"m\"\\xfc\"d\"\\xfc\"",
        CellFormat::DateTime,
    ),
    ("ha/p\\\\m", CellFormat::DateTime),
    ("*-yyyy-mm-dd", CellFormat::DateTime),
    ("H:MM:SS;@", CellFormat::DateTime),
    ("[h]", CellFormat::TimeDelta),
    ("[ss]", CellFormat::TimeDelta),
    ("[s].000", CellFormat::TimeDelta),
    ("[m]", CellFormat::TimeDelta),
    ("[mm]", CellFormat::TimeDelta),
    (
        "[Blue]\\+[h]:mm;[Red]\\-[h]:mm;[Green][h]:mm",
        CellFormat::TimeDelta,
    ),
    ("[>=100][Magenta][s].00", CellFormat::TimeDelta),
    ("[h]:mm;[=0]\\-", CellFormat::TimeDelta),
    ("[h]:mm:ss", CellFormat::TimeDelta),
    ("#,##0\\ [$\\u20bd-46D]", CellFormat::Other),
    (
        "\"Y: \"0.00\"m\";\"Y: \"-0.00\"m\";\"Y: <num>m\";@",
        CellFormat::Other,
    ),
    ("#,##0\\ [$''u20bd-46D]", CellFormat::Other),
    ("\"$\"#,##0_);[Red](\"$\"#,##0)", CellFormat::Other),
    ("0_ ;[Red]\\-0", CellFormat::Other),
    ("#,##0.0####\" YMD\"", CellFormat::Other),
    ("[>=100][Magenta].00", CellFormat::Other),
    ("[>=100][Magenta]General", CellFormat::Other),
    (
        "#,##0.00\\ _M\"H\"_);[Red]#,##0.00\\ _M\"S\"_)",
        CellFormat::Other,
    ),
    ("0\"x\"*d", CellFormat::Other),
    ("*-#,##0", CellFormat::Other),
    ("#,##0*y", CellFormat::Other),
    ("\\Y000000", CellFormat::Other),
];

#[test]
fn tells_the_classes_of_formats(rt: HostRuntime) {
    for (format, class) in FORMATS.iter() {
        assert_eq!(rt; detect_custom_number_format(format), *class);
    }
}

// 256 brackets that stay open.
#[test]
fn counts_more_than_255_open_brackets(rt: HostRuntime) -> Result<(), Fail> {
    let mut format = String::new(rt.alloc());
    for _ in 0..256 {
        format.push('[')?;
    }
    assert_eq!(rt;
        detect_custom_number_format(format.as_str()),
        CellFormat::Other
    );
    Ok(())
}

static CODES: [(u16, CellFormat); 3] = [
    (14, CellFormat::DateTime),
    (46, CellFormat::TimeDelta),
    (49, CellFormat::Other),
];

static IDS: [(&str, CellFormat); 4] = [
    ("58", CellFormat::DateTime),
    ("46", CellFormat::TimeDelta),
    ("046", CellFormat::Other),
    ("+46", CellFormat::Other),
];

#[test]
fn tells_the_classes_of_built_in_formats(rt: HostRuntime) {
    for (code, class) in CODES.iter() {
        assert!(rt; builtin_format_by_code(*code) == *class, "{code}");
    }
    for (id, class) in IDS.iter() {
        assert!(rt; builtin_format_by_id(id) == *class, "{id}");
    }
}

#[test]
fn states_its_laws(_rt: HostRuntime) {
    class_of_first_section();
    class_of_decimal_text();
    equality_by_content();
    order_of_regions();
}

// A value of a table of cases.
#[derive(Clone, Copy)]
enum Input {
    Int(i64),
    Float(Number),
    Text(&'static str),
    Truth(bool),
    Date(Number, bool),
    IsoDate(&'static str),
    IsoDuration(&'static str),
    Wrong(CellErrorType),
    Nothing,
}

fn date_of(number: Number, is_1904: bool) -> ExcelDateTime {
    ExcelDateTime::new(number, ExcelDateTimeType::DateTime, is_1904)
}

fn data_of(alloc: Global, input: Input) -> Result<Data, AllocError> {
    match input {
        Input::Int(n) => Ok(Data::Int(n)),
        Input::Float(x) => Ok(Data::Float(x)),
        Input::Text(s) => Data::from_text(alloc, s),
        Input::Truth(b) => Ok(Data::Bool(b)),
        Input::Date(x, is_1904) => Ok(Data::DateTime(date_of(x, is_1904))),
        Input::IsoDate(s) => Ok(Data::DateTimeIso(String::from_str(alloc, s)?)),
        Input::IsoDuration(s) => Ok(Data::DurationIso(String::from_str(alloc, s)?)),
        Input::Wrong(e) => Ok(Data::Error(e)),
        Input::Nothing => Ok(Data::Empty),
    }
}

fn ref_of(input: Input) -> DataRef<'static> {
    match input {
        Input::Int(n) => DataRef::Int(n),
        Input::Float(x) => DataRef::Float(x),
        Input::Text(s) => DataRef::SharedString(s),
        Input::Truth(b) => DataRef::Bool(b),
        Input::Date(x, is_1904) => DataRef::DateTime(date_of(x, is_1904)),
        Input::Wrong(e) => DataRef::Error(e),
        Input::IsoDate(_) | Input::IsoDuration(_) | Input::Nothing => DataRef::Empty,
    }
}

fn is_value(alloc: Global, found: Data, wanted: Input) -> Result<bool, AllocError> {
    Ok(found == data_of(alloc, wanted)?)
}

fn is_ref(found: DataRef<'_>, wanted: Input) -> bool {
    found == ref_of(wanted)
}

#[test]
fn gives_numbers_their_values_under_a_class(rt: HostRuntime) -> Result<(), Fail> {
    let (alloc, two) = (rt.alloc(), Number::Whole(2));
    let date = format_excel_i64(2, Some(&CellFormat::DateTime), true);
    assert!(rt; is_value(alloc, date, Input::Date(two, true))?);
    assert!(rt; is_value(alloc, format_excel_i64(2, None, false), Input::Int(2))?);
    let float = format_excel_number(two, Some(&CellFormat::Other), false);
    assert!(rt; is_value(alloc, float, Input::Float(two))?);
    Ok(())
}

fn gives_a_span(number: Number) -> bool {
    let span = ExcelDateTime::new(number, ExcelDateTimeType::TimeDelta, false);
    format_excel_number(number, Some(&CellFormat::TimeDelta), false) == Data::DateTime(span)
}

#[test]
fn gives_spans_and_references(rt: HostRuntime) {
    let two = Number::Whole(2);
    assert!(rt; gives_a_span(two));
    assert!(rt; is_ref(format_excel_i64_ref(2, None, false), Input::Int(2)));
    assert!(rt; is_ref(format_excel_number_ref(two, None, false), Input::Float(two)));
}

#[test]
fn tells_dates_from_spans(rt: HostRuntime) {
    let two = Number::Whole(2);
    let day = date_of(two, true);
    assert!(rt; day.is_datetime() && !day.is_duration() && day.has_1904_epoch());
    let span = ExcelDateTime::new(two, ExcelDateTimeType::TimeDelta, false);
    assert!(rt; span.is_duration() && !span.has_1904_epoch() && span.number() == two);
    assert!(rt; ExcelDateTime::default() == date_of(Number::Whole(0), false));
}

// A copy of a value is equal to it, and only the blank equals the blank.
fn copies<T: CellType>(alloc: Global, value: &T) -> Result<bool, AllocError> {
    let copy = value.try_copy(alloc)?;
    let blank = T::blank(alloc);
    Ok(copy == *value && blank.is_blank() && value.is_blank() == (*value == blank))
}

static VALUES: [Input; 10] = [
    Input::Int(1),
    Input::Float(Number::Hundredths(1)),
    Input::Text("x"),
    Input::Text(""),
    Input::Truth(true),
    Input::Date(Number::Whole(2), true),
    Input::IsoDate("2020-02-29"),
    Input::IsoDuration("PT1H"),
    Input::Wrong(CellErrorType::NA),
    Input::Nothing,
];

#[test]
fn copies_every_value(rt: HostRuntime) -> Result<(), Fail> {
    for input in VALUES.iter() {
        assert!(rt; copies(rt.alloc(), &data_of(rt.alloc(), *input)?)?);
    }
    Ok(())
}

// The same of a text that is owned, as itself and in a reference.
fn copies_texts(alloc: Global) -> Result<bool, AllocError> {
    let text = String::from_str(alloc, "x")?;
    let copies_text = copies(alloc, &text)?;
    Ok(copies_text && copies(alloc, &DataRef::String(text))?)
}

#[test]
fn copies_owned_texts_and_numbers(rt: HostRuntime) -> Result<(), Fail> {
    assert!(rt; copies_texts(rt.alloc())?);
    assert!(rt; copies(rt.alloc(), &3usize)?);
    Ok(())
}

static REFERENCES: [Input; 4] = [
    Input::Int(1),
    Input::Text("x"),
    Input::Date(Number::Whole(2), true),
    Input::Nothing,
];

#[test]
fn copies_every_reference(rt: HostRuntime) -> Result<(), Fail> {
    for input in REFERENCES.iter() {
        assert!(rt; copies(rt.alloc(), &ref_of(*input))?);
    }
    Ok(())
}

// The text of a value, read through the bound.
fn text_of<T: DataType>(alloc: Global, value: &T) -> Result<Option<String>, AllocError> {
    value.as_string(alloc)
}

// Whether a value has this text through the bound.
fn has_text<T: DataType>(alloc: Global, value: &T, text: &str) -> Result<bool, AllocError> {
    match text_of(alloc, value)? {
        Some(found) => Ok(found.as_str() == text),
        None => Ok(false),
    }
}

// The same of a value of a table.
fn gives_text(alloc: Global, input: Input, text: &str) -> Result<bool, AllocError> {
    has_text(alloc, &data_of(alloc, input)?, text)
}

// Values, and their texts through the bound.
static TEXTS: [(Input, &str); 3] = [
    (Input::Text("x"), "x"),
    (Input::Float(Number::Hundredths(150)), "1.5"),
    (Input::Int(-3), "-3"),
];

#[test]
fn reads_values_through_the_bound(rt: HostRuntime) -> Result<(), Fail> {
    for (input, text) in TEXTS.iter() {
        assert!(rt; gives_text(rt.alloc(), *input, text)?);
    }
    assert!(rt; has_text(rt.alloc(), &ref_of(Input::Text("y")), "y")?);
    assert!(rt; text_of(rt.alloc(), &Data::Bool(true))?.is_none());
    Ok(())
}

#[test]
fn copies_a_reference_into_a_value(rt: HostRuntime) -> Result<(), Fail> {
    let owned = Data::from_ref(rt.alloc(), ref_of(Input::Text("x")))?;
    assert!(rt; is_value(rt.alloc(), owned, Input::Text("x"))?);
    Ok(())
}

fn tells_what_is_there() -> bool {
    Data::Empty.is_empty()
        && !Data::Int(0).is_empty()
        && Data::Int(5).is_int()
        && Data::Bool(true).is_bool()
        && DataRef::SharedString("a").is_string()
        && !DataRef::SharedString("a").is_int()
}

fn gives_what_is_there() -> bool {
    Data::Int(5).get_int() == Some(5) && Data::Bool(true).get_bool() == Some(true)
}

fn is_number(number: Number) -> bool {
    let value = Data::Float(number);
    value.is_float() && value.get_float() == Some(number)
}

fn is_date(date: ExcelDateTime) -> bool {
    let value = Data::DateTime(date);
    value.is_datetime() && value.get_datetime() == Some(date)
}

fn is_error(error: CellErrorType) -> bool {
    let value = Data::Error(error);
    value.is_error() && value.get_error() == Some(&error)
}

fn is_iso_date(alloc: Global, text: &str) -> Result<bool, AllocError> {
    let value = Data::DateTimeIso(String::from_str(alloc, text)?);
    Ok(value.is_datetime_iso() && value.get_datetime_iso() == Some(text))
}

fn is_iso_duration(alloc: Global, text: &str) -> Result<bool, AllocError> {
    let value = Data::DurationIso(String::from_str(alloc, text)?);
    Ok(value.is_duration_iso() && value.get_duration_iso() == Some(text))
}

#[test]
fn tells_the_kind_of_a_value(rt: HostRuntime) -> Result<(), Fail> {
    assert!(rt; tells_what_is_there() && gives_what_is_there());
    assert!(rt; is_number(Number::Whole(5)) && is_date(ExcelDateTime::default()));
    assert!(rt; is_error(CellErrorType::Ref));
    assert!(rt; is_iso_date(rt.alloc(), "2020-02-29")?);
    assert!(rt; is_iso_duration(rt.alloc(), "PT1H")?);
    Ok(())
}

// Values, and the whole numbers that they are taken for.
static WHOLES: [(Input, Option<i64>); 6] = [
    (Input::Int(-7), Some(-7)),
    (Input::Float(Number::Hundredths(-199)), Some(-1)),
    (Input::Truth(true), Some(1)),
    (Input::Text("-12"), Some(-12)),
    (Input::Text("1.5"), None),
    (Input::Nothing, None),
];

fn is_taken_for(alloc: Global, input: Input, whole: Option<i64>) -> Result<bool, AllocError> {
    Ok(data_of(alloc, input)?.as_i64() == whole)
}

#[test]
fn takes_values_for_whole_numbers(rt: HostRuntime) -> Result<(), Fail> {
    for (input, whole) in WHOLES.iter() {
        assert!(rt; is_taken_for(rt.alloc(), *input, *whole)?);
    }
    assert!(rt; ref_of(Input::Text("9223372036854775808")).as_i64() == None);
    Ok(())
}

#[test]
fn compares_values_with_their_contents(rt: HostRuntime) {
    let text = ref_of(Input::Text("x"));
    assert!(rt; text.eq_text("x") && !text.eq_text("y"));
    assert!(rt; Data::Int(1).eq_int(1) && !Data::Float(Number::Whole(1)).eq_int(1));
    assert!(rt; Data::Bool(false).eq_bool(false) && !Data::Empty.eq_bool(false));
}

// Values, and the texts of a reference to them and of an owned copy of it.
static PRINTED: [(Input, &str); 14] = [
    (Input::Int(-1), "-1"),
    (Input::Float(Number::Hundredths(5)), "0.05"),
    (Input::Text("ä"), "ä"),
    (Input::Truth(false), "false"),
    (Input::Date(Number::Hundredths(250), false), "2.5"),
    (Input::Wrong(CellErrorType::GettingData), "#DATA!"),
    (Input::Wrong(CellErrorType::Div0), "#DIV/0!"),
    (Input::Wrong(CellErrorType::NA), "#N/A"),
    (Input::Wrong(CellErrorType::Name), "#NAME?"),
    (Input::Wrong(CellErrorType::Null), "#NULL!"),
    (Input::Wrong(CellErrorType::Num), "#NUM!"),
    (Input::Wrong(CellErrorType::Ref), "#REF!"),
    (Input::Wrong(CellErrorType::Value), "#VALUE!"),
    (Input::Nothing, ""),
];

fn owned_text(alloc: Global, value: &DataRef<'_>) -> Result<String, AllocError> {
    Data::from_ref(alloc, value.try_copy(alloc)?)?.to_string(alloc)
}

// Whether a reference to a value and an owned copy of it have this text.
fn prints(alloc: Global, input: Input, text: &str) -> Result<bool, AllocError> {
    let value = ref_of(input);
    let printed = value.to_string(alloc)?;
    Ok(printed.as_str() == text && owned_text(alloc, &value)?.as_str() == text)
}

#[test]
fn prints_values(rt: HostRuntime) -> Result<(), Fail> {
    for (input, text) in PRINTED.iter() {
        assert!(rt; prints(rt.alloc(), *input, text)?, "{text}");
    }
    Ok(())
}

// Whether numbers and truths become values, and what may be missing the value or the blank.
fn converts_numbers(alloc: Global) -> Result<bool, AllocError> {
    Ok(
        is_value(alloc, Data::from(3i64), Input::Int(3))?
            && is_value(alloc, Data::from(Some(3i64)), Input::Int(3))?
            && is_value(alloc, Data::from(None::<bool>), Input::Nothing)?,
    )
}

fn converts_others(alloc: Global) -> Result<bool, AllocError> {
    let (one, error) = (Number::Whole(1), CellErrorType::Num);
    Ok(
        is_value(alloc, Data::from(true), Input::Truth(true))?
            && is_value(alloc, Data::from(one), Input::Float(one))?
            && is_value(alloc, Data::from(error), Input::Wrong(error))?
            && is_value(alloc, Data::from(()), Input::Nothing)?,
    )
}

#[test]
fn converts_into_values(rt: HostRuntime) -> Result<(), Fail> {
    assert!(rt; converts_numbers(rt.alloc())? && converts_others(rt.alloc())?);
    assert!(rt; Data::from(String::from_str(rt.alloc(), "x")?).eq_text("x"));
    Ok(())
}

fn counts_its_cells(region: Dimensions) -> bool {
    region.contains(1, 2) && region.contains(3, 4) && !region.contains(4, 4) && region.len() == 9
}

fn orders_by_corners(region: Dimensions) -> bool {
    Dimensions::new((1, 2), (9, 9)) < Dimensions::new((2, 0), (0, 0))
        && region < Dimensions::new((1, 2), (3, 5))
}

// A region is found in a map by an equal one.
fn is_found(alloc: Global, region: Dimensions) -> Result<bool, AllocError> {
    let mut seen = HashMap::new(alloc);
    seen.insert(region, 1u8)?;
    Ok(seen.contains_key(&Dimensions::new((1, 2), (3, 4))))
}

#[test]
fn compares_and_counts_regions(rt: HostRuntime) -> Result<(), Fail> {
    let region = Dimensions::new((1, 2), (3, 4));
    assert!(rt; counts_its_cells(region) && orders_by_corners(region));
    assert!(rt; is_found(rt.alloc(), region)?);
    Ok(())
}

#[test]
fn has_defaults(rt: HostRuntime) {
    assert!(rt; Dimensions::default() == Dimensions::new((0, 0), (0, 0)));
    assert!(rt; HeaderRow::default() == HeaderRow::FirstNonEmptyRow);
    assert!(rt; HeaderRow::Row(1) != HeaderRow::default());
}

fn keeps_a_cell() -> bool {
    let cell = Cell::new((3, 4), Data::Int(5));
    cell.get_position() == (3, 4) && *cell.get_value() == Data::Int(5)
}

fn sheet_of(alloc: Global, visible: SheetVisible) -> Result<Sheet, AllocError> {
    Ok(Sheet {
        name: String::from_str(alloc, "A")?,
        typ: SheetType::WorkSheet,
        visible,
    })
}

#[test]
fn keeps_cells_and_sheets(rt: HostRuntime) -> Result<(), Fail> {
    assert!(rt; keeps_a_cell());
    let sheet = sheet_of(rt.alloc(), SheetVisible::VeryHidden)?;
    assert!(rt; sheet != sheet_of(rt.alloc(), SheetVisible::Hidden)?);
    Ok(())
}
