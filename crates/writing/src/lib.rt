// The writer: a document given one field at a time, in image order, into a lent buffer.
// What each call does is defined in writer Writer; the code that they share is in giving, writer and writing_parts.

#![tactic(auto)]

ghost use Rattle.std.specs.Prelude.{◌≡◌};
ghost use Rattle.kinds.specs.Kinds.{unsigned};
ghost use Rattle.kinds.specs.Forms.{bits, held};
ghost use Rattle.writer.specs.Writer.{fresh, recorder, start_time, default_namespace, namespace_count, uri, short_name, service_count, service, document_id};
ghost use Rattle.writer.specs.Writer.{open_layout, type_name, attribute_count, attribute_name, attribute_type, open_row, value, value_call, close_row, give_up, finish};
ghost use Rattle.writer.specs.Answers.{left, standing, call_leaves};

use giving::Deed;
use kinds::Basic;
use octets::Refused;
use texts::Rule;
use writer::{Standing, State, Wanted};

// Where a writer stands before the first call.
pub fn fresh() -> Standing
    ensures { result ≡ standing fresh 0 }
{
    Standing {
        state: State {
            place: 0,
            turn: Wanted::Recorder,
            count: 0,
            start: 0,
            rows: 0,
        },
        used: 0,
    }
}

// The version and the recorder.
pub fn recorder(from: Standing, buf: &mut [u8], book: &[u8], xs: &[u8]) -> Result<Standing, Refused>
    ensures { left result buf.new book.now ≡ call_leaves from.state buf.old book.now from.used (recorder xs.now) }
{
    let deed = Deed {
        turn: Wanted::Recorder,
        fault: writer::breach(Rule::Characters, xs),
        next: Wanted::StartTime,
        count: 0,
        start: from.state.start,
    };
    giving::give_pair(from, buf, book, deed, 4, xs.len() as u64, xs)
}

// The start time.
pub fn start_time(
    from: Standing,
    buf: &mut [u8],
    book: &[u8],
    time: i64,
) -> Result<Standing, Refused>
    ensures { left result buf.new book.now ≡ call_leaves from.state buf.old book.now from.used (start_time (unsigned 8 time)) }
{
    let deed = Deed {
        turn: Wanted::StartTime,
        fault: Ok(()),
        next: Wanted::DefaultNamespace,
        count: 0,
        start: from.state.start,
    };
    giving::give_number(from, buf, book, deed, 8, time.cast_unsigned())
}

// The default namespace.
pub fn default_namespace(
    from: Standing,
    buf: &mut [u8],
    book: &[u8],
    xs: &[u8],
) -> Result<Standing, Refused>
    ensures { left result buf.new book.now ≡ call_leaves from.state buf.old book.now from.used (default_namespace xs.now) }
{
    giving::give_text(
        from,
        buf,
        book,
        Wanted::DefaultNamespace,
        xs,
        Wanted::NamespaceCount,
        0,
    )
}

// The count of other namespaces.
pub fn namespace_count(
    from: Standing,
    buf: &mut [u8],
    book: &[u8],
    n: u32,
) -> Result<Standing, Refused>
    ensures { left result buf.new book.now ≡ call_leaves from.state buf.old book.now from.used (namespace_count n) }
{
    giving::give_count(
        from,
        buf,
        book,
        Wanted::NamespaceCount,
        n,
        Wanted::Uri,
        Wanted::ServiceCount,
    )
}

// A namespace's URI.
pub fn uri(from: Standing, buf: &mut [u8], book: &[u8], xs: &[u8]) -> Result<Standing, Refused>
    ensures { left result buf.new book.now ≡ call_leaves from.state buf.old book.now from.used (uri xs.now) }
{
    giving::give_text(
        from,
        buf,
        book,
        Wanted::Uri,
        xs,
        Wanted::ShortName,
        from.state.count,
    )
}

// A namespace's short name.
pub fn short_name(
    from: Standing,
    buf: &mut [u8],
    book: &[u8],
    xs: &[u8],
) -> Result<Standing, Refused>
    ensures { left result buf.new book.now ≡ call_leaves from.state buf.old book.now from.used (short_name xs.now) }
{
    giving::give_item(
        from,
        buf,
        book,
        Wanted::ShortName,
        xs,
        Wanted::Uri,
        Wanted::ServiceCount,
    )
}

// The count of service definitions.
pub fn service_count(
    from: Standing,
    buf: &mut [u8],
    book: &[u8],
    n: u32,
) -> Result<Standing, Refused>
    ensures { left result buf.new book.now ≡ call_leaves from.state buf.old book.now from.used (service_count n) }
{
    giving::give_count(
        from,
        buf,
        book,
        Wanted::ServiceCount,
        n,
        Wanted::Service,
        Wanted::DocumentId,
    )
}

// A service definition.
pub fn service(from: Standing, buf: &mut [u8], book: &[u8], xs: &[u8]) -> Result<Standing, Refused>
    ensures { left result buf.new book.now ≡ call_leaves from.state buf.old book.now from.used (service xs.now) }
{
    giving::give_item(
        from,
        buf,
        book,
        Wanted::Service,
        xs,
        Wanted::Service,
        Wanted::DocumentId,
    )
}

// The document id, and the four octets FF behind the header.
pub fn document_id(
    from: Standing,
    buf: &mut [u8],
    book: &[u8],
    xs: &[u8],
) -> Result<Standing, Refused>
    ensures { left result buf.new book.now ≡ call_leaves from.state buf.old book.now from.used (document_id xs.now) }
{
    let deed = Deed {
        turn: Wanted::DocumentId,
        fault: writer::sixteen(xs.len()),
        next: Wanted::Element,
        count: 0,
        start: from.state.start,
    };
    let head = writing_parts::word4(16);
    giving::give(from, buf, book, deed, &head, xs, &octets::OPEN)
}

// A layout's kind and number.
pub fn open_layout(from: Standing, buf: &mut [u8], book: &[u8], n: u32) -> Result<Standing, Refused>
    ensures { left result buf.new book.now ≡ call_leaves from.state buf.old book.now from.used (open_layout n) }
{
    let deed = Deed {
        turn: Wanted::Element,
        fault: Ok(()),
        next: Wanted::TypeName,
        count: 0,
        start: from.state.place,
    };
    giving::give_pair(from, buf, book, deed, 1, u64::from(n), b"")
}

// A layout's type name.
pub fn type_name(
    from: Standing,
    buf: &mut [u8],
    book: &[u8],
    xs: &[u8],
) -> Result<Standing, Refused>
    ensures { left result buf.new book.now ≡ call_leaves from.state buf.old book.now from.used (type_name xs.now) }
{
    giving::give_text(
        from,
        buf,
        book,
        Wanted::TypeName,
        xs,
        Wanted::AttributeCount,
        0,
    )
}

// An attribute's name.
pub fn attribute_name(
    from: Standing,
    buf: &mut [u8],
    book: &[u8],
    xs: &[u8],
) -> Result<Standing, Refused>
    ensures { left result buf.new book.now ≡ call_leaves from.state buf.old book.now from.used (attribute_name xs.now) }
{
    giving::give_text(
        from,
        buf,
        book,
        Wanted::AttributeName,
        xs,
        Wanted::AttributeType,
        from.state.count,
    )
}

// The count of a layout's attributes; with none the layout is complete.
pub fn attribute_count(
    from: Standing,
    buf: &mut [u8],
    book: &mut [u8],
    n: u32,
) -> Result<Standing, Refused>
    ensures { left result buf.new book.new ≡ call_leaves from.state buf.old book.old from.used (attribute_count n) }
{
    let fault = writer::at_most(n, octets::MOST_ATTRIBUTES);
    giving::give_attribute(from, buf, book, Wanted::AttributeCount, fault, n, n)
}

// An attribute's type; the last one completes the layout.
pub fn attribute_type(
    from: Standing,
    buf: &mut [u8],
    book: &mut [u8],
    t: u32,
) -> Result<Standing, Refused>
    ensures { left result buf.new book.new ≡ call_leaves from.state buf.old book.old from.used (attribute_type t) }
{
    let fault = writer::type_fault(t);
    let more = from.state.count.saturating_sub(1);
    giving::give_attribute(from, buf, book, Wanted::AttributeType, fault, t, more)
}

// A row's kind, its layout's number, and its length: as zero until the row is closed, or unstated.
pub fn open_row(
    from: Standing,
    buf: &mut [u8],
    book: &[u8],
    n: u32,
    stated: bool,
) -> Result<Standing, Refused>
    ensures { left result buf.new book.now ≡ call_leaves from.state buf.old book.now from.used (open_row n stated) }
{
    let place = from.state.place;
    giving::in_turn(from, buf.len(), book, Wanted::Element).map_err(|fault| Refused {
        fault,
        place,
    })?;
    let deed = Deed {
        turn: Wanted::Element,
        fault: writer::layout_fault(book, from.used, n),
        next: Wanted::Value,
        count: 0,
        start: place,
    };
    let head = writing_parts::pair(2, u64::from(n));
    let body = writing_parts::length_octets(stated, 0);
    giving::give_on(from, buf, deed, &head, &body, b"")
}

// A value of the open row that is a number, by its bits: those of its type's own width. A number that does not fit its type, as 300 for a byte or all 64 bits of -2 for an int, is refused by 21.
pub fn value_number(
    from: Standing,
    buf: &mut [u8],
    book: &[u8],
    b: Basic,
    n: u64,
) -> Result<Standing, Refused>
    ensures { left result buf.new book.now ≡ call_leaves from.state buf.old book.now from.used (value b (bits n)) }
{
    let fits = writer::suits_number(b, n);
    let first = 8 - writer::width_of(b);
    let head = writing_parts::word8(n);
    giving::give_value(from, buf, book, b, fits, Ok(()), &head[first..], b"")
}

// A value of the open row that is octets or a string.
pub fn value_octets(
    from: Standing,
    buf: &mut [u8],
    book: &[u8],
    b: Basic,
    xs: &[u8],
) -> Result<Standing, Refused>
    ensures { left result buf.new book.now ≡ call_leaves from.state buf.old book.now from.used (value b (held xs.now)) }
{
    let fits = writer::suits_octets(b);
    let head = writing_parts::word4(xs.len() as u64);
    let breach = writer::value_breach(b, xs);
    giving::give_value(from, buf, book, b, fits, breach, &head, xs)
}

// A value of the open row as reading hands it out: its number, or the octets given beside it where its type has those.
pub fn value(
    from: Standing,
    buf: &mut [u8],
    book: &[u8],
    v: kinds::Value,
    xs: &[u8],
) -> Result<Standing, Refused>
    ensures { left result buf.new book.now ≡ call_leaves from.state buf.old book.now from.used (value_call v xs.now) }
{
    let b = kinds::basic_of_value(v);
    if writer::suits_octets(b) {
        value_octets(from, buf, book, b, xs)
    } else {
        value_number(from, buf, book, b, kinds::bits_of_value(v))
    }
}

// The open row closed: its length where it is stated, and the row counted.
pub fn close_row(from: Standing, buf: &mut [u8], book: &[u8]) -> Result<Standing, Refused>
    ensures { left result buf.new book.now ≡ call_leaves from.state buf.old book.now from.used close_row }
{
    let place = from.state.place;
    let start = from.state.start;
    giving::in_turn(from, buf.len(), book, Wanted::Value).map_err(|fault| Refused {
        fault,
        place,
    })?;
    let next = writing_parts::row_next(buf, start, book, from.used, from.state.count);
    writer::close_fault(next).map_err(|fault| Refused { fault, place })?;
    writing_parts::lay_length(buf, start, place);
    let state = State {
        place,
        turn: Wanted::Element,
        count: 0,
        start: 0,
        rows: from.state.rows + 1,
    };
    Ok(Standing { state, ..from })
}

// The open layout or row given up: its octets are zero, and its start is the place.
pub fn give_up(from: Standing, buf: &mut [u8], book: &[u8]) -> Result<Standing, Refused>
    ensures { left result buf.new book.now ≡ call_leaves from.state buf.old book.now from.used give_up }
{
    let place = from.state.place;
    let start = from.state.start;
    let mine = giving::is_open(from.state.turn);
    giving::ready(from, buf.len(), book, mine).map_err(|fault| Refused { fault, place })?;
    writing_parts::lay_zeros(buf, start, place - start);
    let state = State {
        place: start,
        turn: Wanted::Element,
        count: 0,
        start: 0,
        rows: from.state.rows,
    };
    Ok(Standing { state, ..from })
}

// The end: its kind, the count of rows closed, and the end time.
pub fn finish(from: Standing, buf: &mut [u8], book: &[u8], time: i64) -> Result<Standing, Refused>
    ensures { left result buf.new book.now ≡ call_leaves from.state buf.old book.now from.used (finish (unsigned 8 time)) }
{
    let deed = Deed {
        turn: Wanted::Element,
        fault: Ok(()),
        next: Wanted::Nothing,
        count: 0,
        start: from.state.start,
    };
    let body = writing_parts::word8(time.cast_unsigned());
    let rows = u64::from(from.state.rows);
    giving::give_pair(from, buf, book, deed, 3, rows, &body)
}
