//! Requests, replies and notices of the tests of a server.

pub const SHORT: &str = "# Pier test\n1\nS2 30.0000000\n1999\n3\nS2\n0 0 0\n*END*\n2\n";

pub const DOCK: &str = "name,reference,high_add,low_add,high_times,low_times,high_plus,low_plus\n\
    Dock,Pier,0:30,-0:10,1.1,0.9,0.1,0\n";

pub const DAY: &str =
    "GET /predict?station=Pier&begin=2000-01-10T00:00Z&end=2000-01-11T00:00Z HTTP/1.1\r\nHost: a\r\n\r\n";

pub const LISTED: &str =
    "HTTP/1.1 200 OK\r\nContent-Type: text/plain; charset=utf-8\r\nContent-Length: 195\r\nConnection: close\r\n\r\nPier\n\
    2000-01-10 06:00 UTC      -1.00 feet  Low Tide\n2000-01-10 11:59 UTC       1.00 feet  High Tide\n\
    2000-01-10 18:00 UTC      -1.00 feet  Low Tide\n2000-01-10 23:59 UTC       1.00 feet  High Tide\n";

pub const LOST: &str = "GET /tides HTTP/1.1\r\nHost: a\r\n\r\n";

pub const NOT_FOUND: &str =
    "HTTP/1.1 404 Not Found\r\nContent-Type: text/plain; charset=utf-8\r\nContent-Length: 10\r\nConnection: close\r\n\r\nnot found\n";

pub const BAD: &str =
    "HTTP/1.1 400 Bad Request\r\nContent-Type: text/plain; charset=utf-8\r\nContent-Length: 12\r\nConnection: close\r\n\r\nbad request\n";

pub const TOO_LARGE: &str =
    "HTTP/1.1 413 Content Too Large\r\nContent-Type: text/plain; charset=utf-8\r\nContent-Length: 18\r\n\
    Connection: close\r\n\r\ncontent too large\n";

pub const FIELDS_TOO_LARGE: &str =
    "HTTP/1.1 431 Request Header Fields Too Large\r\nContent-Type: text/plain; charset=utf-8\r\nContent-Length: 24\r\n\
    Connection: close\r\n\r\nheader fields too large\n";

pub const NO_CERTIFICATE: &str =
    "HTTP/1.1 422 Unprocessable Content\r\nContent-Type: text/plain; charset=utf-8\r\nContent-Length: 20\r\n\
    Connection: close\r\n\r\ncertificate: line 1\n";

pub const NOTICE: &str = "http://127.0.0.1:8080/\n";

pub const FAILED: &str = "http://127.0.0.1:8080/\nread fault\n";
