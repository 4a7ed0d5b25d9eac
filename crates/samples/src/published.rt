// A published record: the example of MS-EVEN 4.2.

use crate::table::Question;

// Its SID is printed in part only: with zeros there it is no SID, and with a well-formed one the parts end four
// bytes before Length2.
pub fn published() -> [u8; 168] {
    let mut r = [0u8; 168];
    let q = Question(
        b"|0|\xa8\0\0\0LfLe\0\x01\0\0\x01\xbb\xb3\x4c\x19\xbb\xb3\x4c\x17\0\0\0\
        |24|\x04\0\x02\0\x01\0\0\0\
        |36|\x76\0\0\0\x0c\0\0\0\x6a\0\0\0\x10\0\0\0\x90\0\0\0\
        |56|G\0e\0n\0e\0r\0a\0t\0e\0E\0v\0e\0n\0t\0\
        |84|C\0O\0M\0P\0U\0T\0E\0R\0\
        |110|\0\0\x01\0\0\x46\0\0\
        |118|F\0i\0r\0s\0t\0\0\0S\0e\0c\0o\0n\0d\0\
        |144|\x76\x0b\x54\x86\x42\x3e\xbe\x9e\xff\x64\xb0\x96\x01\x53\x2b\x77\
        |164|\xa8",
    );
    q.patch(&mut r, 1);
    r
}
