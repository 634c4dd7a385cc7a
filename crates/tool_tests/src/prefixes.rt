//! Prefixes of a larger program.
use crate::command::{NO_FAULTS, check};
use std::test::Fail;

/// One unit, with a semicolon as its last byte.
const LARGER: &str = "with Ada.Text_IO, Ada.Unchecked_Deallocation;
use Ada.Text_IO;
package body Lists with SPARK_Mode => On is
   type Cell;
   type List is access Cell;
   type Cell is record
      Value : Integer;
      Next  : List;
   end record;
   type Kind is (Red, Green);
   type Row is array (1 .. 3) of Kind;
   subtype Small is Integer range 0 .. 9;
   procedure Free is new Ada.Unchecked_Deallocation (Cell, List);
   Head : List := new Cell'(1, null);
   Zero : constant := 0;
   procedure Reset (L : in out List);
   function Sum (L : access constant Cell; N : in Small) return Integer with SPARK_Mode is
      Total : Integer := Zero;
   begin
      while N > 0 and then not (Total = -1) loop
         Total := Total + L.all.Value * 2 mod 7;
         exit when N = 1;
      end loop;
      for I in reverse Row'Range loop
         case I is
            when 1 | 2 .. 3 => null;
            when others => Put_Line (\"a\" & \"b\");
         end case;
      end loop;
      if Total >= 1 then
         return Total;
      elsif Total /= 0 or else N = 2 then
         null;
      else
         declare
            R : Row := (others => Red);
         begin
            R (1) := Green;
         end;
      end if;
      return abs Total;
   end Sum;
end Lists;";

/// Each of them is refused by the lexer or the grammar, and the whole of it by the rules of names:
/// the body has no specification.
#[test]
fn prefixes_of_a_larger_program(rt: HostRuntime) -> Result<(), Fail> {
    let text = LARGER.as_bytes();
    for end in 0..text.len() + 1 {
        let front = Vec::from_slice(rt.alloc(), &text[..end])?;
        let response = check(rt.alloc(), front, None, NO_FAULTS)?;
        let is_read = response.err.bytes() == b"f.adb:3:14: N5 body missing\n".as_slice();
        assert!(rt; response.status == 2, "{end}");
        assert!(rt; is_read == (end == text.len()), "{end}");
    }
    Ok(())
}
