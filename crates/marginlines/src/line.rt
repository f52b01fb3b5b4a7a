// The two lines of a graph: its response, and the limit less the response, with a minus sign when the figure is over.
ghost use Rattle.std.specs.Prelude.{◌≤◌, length};
ghost use Rattle.margins.specs.Margins.{margin_line};
ghost use Rattle.writing.specs.Lengths.{Long};
ghost use Rattle.writing.specs.Written.{Written};
ghost use Rattle.marginlines.specs.Lines.{graph_lines, longest_margin, longest_lines};

pub fn margin_length(limit: u32, response: u32) -> usize
    ensures { Long (margin_line limit response) longest_margin result }
{
    if response <= limit {
        return writing::line_length(b"margin", limit - response);
    }
    writing::line_length(b"margin", response - limit) + 1
}

pub fn put_margin(part: &mut [u8], limit: u32, response: u32) -> usize
    requires { length (margin_line limit response) ≤ length part.old }
    ensures { Written (margin_line limit response) part.old part.new result }
{
    if response <= limit {
        return writing::put_line(&mut *part, b"margin", limit - response);
    }
    let at = writing::put_bytes(&mut *part, b"margin=-");
    at + writing::put_ended(&mut part[at..], response - limit, b'\n')
}

pub fn lines_length(limit: u32, response: u32) -> usize
    ensures { Long (graph_lines limit response) longest_lines result }
{
    writing::line_length(b"response", response) + margin_length(limit, response)
}

// The margin begins where the response ended.
pub fn put_lines(part: &mut [u8], limit: u32, response: u32) -> usize
    requires { length (graph_lines limit response) ≤ length part.old }
    ensures { Written (graph_lines limit response) part.old part.new result }
{
    let at = writing::put_line(&mut *part, b"response", response);
    at + put_margin(&mut part[at..], limit, response)
}
