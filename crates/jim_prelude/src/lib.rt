//! The stand-ins for the classes of Java's own library that a program may name without declaring them.
//!
//! An analysed program is linked with these classes; a class of its own takes the place of the one here with the same name. They are this
//! project's own: each has some members that programs often name, with the smallest bodies that make what the originals make. A
//! method that gives a new object makes one, one that gives its receiver gives it, and numbers are all 0.
#![tactic(auto)]

ghost use Rattle.std.specs.Prelude.{◌≡◌, ◌≤◌, length};
ghost use Rattle.jim_prelude.specs.Text.{prelude_text};
ghost use Rattle.jim_prelude.specs.declared.TheConstants.{PRELUDE};

/// The classes, in Jimple, a member a line.
pub const PRELUDE: &str = "\
class java.lang.Object {
  void <init>() { return; }
  boolean equals(java.lang.Object) { return 0; }
  int hashCode() { return 0; }
  java.lang.String toString() { java.lang.String s; s = new java.lang.String; return s; }
}
class java.lang.String implements java.lang.CharSequence {
  void <init>() { return; }
  int length() { return 0; }
  java.lang.String toString() { java.lang.String s; s := @this: java.lang.String; return s; }
  java.lang.String concat(java.lang.String) { java.lang.String s; s = new java.lang.String; return s; }
  static java.lang.String valueOf(int) { java.lang.String s; s = new java.lang.String; return s; }
}
class java.lang.Class { }
class java.lang.Throwable {
  java.lang.String message;
  void <init>() { return; }
  void <init>(java.lang.String) { java.lang.Throwable r; java.lang.String s; r := @this: java.lang.Throwable; s := @parameter0: java.lang.String; r.<java.lang.Throwable: java.lang.String message> = s; return; }
  java.lang.String getMessage() { java.lang.Throwable r; java.lang.String s; r := @this: java.lang.Throwable; s = r.<java.lang.Throwable: java.lang.String message>; return s; }
  void printStackTrace() { return; }
}
class java.lang.Exception extends java.lang.Throwable {
  void <init>() { java.lang.Exception r; r := @this: java.lang.Exception; specialinvoke r.<java.lang.Throwable: void <init>()>(); return; }
  void <init>(java.lang.String) { java.lang.Exception r; java.lang.String s; r := @this: java.lang.Exception; s := @parameter0: java.lang.String; specialinvoke r.<java.lang.Throwable: void <init>(java.lang.String)>(s); return; }
}
class java.lang.Error extends java.lang.Throwable {
  void <init>() { java.lang.Error r; r := @this: java.lang.Error; specialinvoke r.<java.lang.Throwable: void <init>()>(); return; }
  void <init>(java.lang.String) { java.lang.Error r; java.lang.String s; r := @this: java.lang.Error; s := @parameter0: java.lang.String; specialinvoke r.<java.lang.Throwable: void <init>(java.lang.String)>(s); return; }
}
class java.lang.RuntimeException extends java.lang.Exception {
  void <init>() { java.lang.RuntimeException r; r := @this: java.lang.RuntimeException; specialinvoke r.<java.lang.Exception: void <init>()>(); return; }
  void <init>(java.lang.String) { java.lang.RuntimeException r; java.lang.String s; r := @this: java.lang.RuntimeException; s := @parameter0: java.lang.String; specialinvoke r.<java.lang.Exception: void <init>(java.lang.String)>(s); return; }
}
class java.lang.NullPointerException extends java.lang.RuntimeException {
  void <init>() { java.lang.NullPointerException r; r := @this: java.lang.NullPointerException; specialinvoke r.<java.lang.RuntimeException: void <init>()>(); return; }
  void <init>(java.lang.String) { java.lang.NullPointerException r; java.lang.String s; r := @this: java.lang.NullPointerException; s := @parameter0: java.lang.String; specialinvoke r.<java.lang.RuntimeException: void <init>(java.lang.String)>(s); return; }
}
class java.lang.IndexOutOfBoundsException extends java.lang.RuntimeException {
  void <init>() { java.lang.IndexOutOfBoundsException r; r := @this: java.lang.IndexOutOfBoundsException; specialinvoke r.<java.lang.RuntimeException: void <init>()>(); return; }
  void <init>(java.lang.String) { java.lang.IndexOutOfBoundsException r; java.lang.String s; r := @this: java.lang.IndexOutOfBoundsException; s := @parameter0: java.lang.String; specialinvoke r.<java.lang.RuntimeException: void <init>(java.lang.String)>(s); return; }
}
class java.lang.ArrayIndexOutOfBoundsException extends java.lang.IndexOutOfBoundsException {
  void <init>() { java.lang.ArrayIndexOutOfBoundsException r; r := @this: java.lang.ArrayIndexOutOfBoundsException; specialinvoke r.<java.lang.IndexOutOfBoundsException: void <init>()>(); return; }
  void <init>(java.lang.String) { java.lang.ArrayIndexOutOfBoundsException r; java.lang.String s; r := @this: java.lang.ArrayIndexOutOfBoundsException; s := @parameter0: java.lang.String; specialinvoke r.<java.lang.IndexOutOfBoundsException: void <init>(java.lang.String)>(s); return; }
}
class java.lang.ArrayStoreException extends java.lang.RuntimeException {
  void <init>() { java.lang.ArrayStoreException r; r := @this: java.lang.ArrayStoreException; specialinvoke r.<java.lang.RuntimeException: void <init>()>(); return; }
  void <init>(java.lang.String) { java.lang.ArrayStoreException r; java.lang.String s; r := @this: java.lang.ArrayStoreException; s := @parameter0: java.lang.String; specialinvoke r.<java.lang.RuntimeException: void <init>(java.lang.String)>(s); return; }
}
class java.lang.NegativeArraySizeException extends java.lang.RuntimeException {
  void <init>() { java.lang.NegativeArraySizeException r; r := @this: java.lang.NegativeArraySizeException; specialinvoke r.<java.lang.RuntimeException: void <init>()>(); return; }
  void <init>(java.lang.String) { java.lang.NegativeArraySizeException r; java.lang.String s; r := @this: java.lang.NegativeArraySizeException; s := @parameter0: java.lang.String; specialinvoke r.<java.lang.RuntimeException: void <init>(java.lang.String)>(s); return; }
}
class java.lang.ClassCastException extends java.lang.RuntimeException {
  void <init>() { java.lang.ClassCastException r; r := @this: java.lang.ClassCastException; specialinvoke r.<java.lang.RuntimeException: void <init>()>(); return; }
  void <init>(java.lang.String) { java.lang.ClassCastException r; java.lang.String s; r := @this: java.lang.ClassCastException; s := @parameter0: java.lang.String; specialinvoke r.<java.lang.RuntimeException: void <init>(java.lang.String)>(s); return; }
}
class java.lang.ArithmeticException extends java.lang.RuntimeException {
  void <init>() { java.lang.ArithmeticException r; r := @this: java.lang.ArithmeticException; specialinvoke r.<java.lang.RuntimeException: void <init>()>(); return; }
  void <init>(java.lang.String) { java.lang.ArithmeticException r; java.lang.String s; r := @this: java.lang.ArithmeticException; s := @parameter0: java.lang.String; specialinvoke r.<java.lang.RuntimeException: void <init>(java.lang.String)>(s); return; }
}
class java.lang.IllegalArgumentException extends java.lang.RuntimeException {
  void <init>() { java.lang.IllegalArgumentException r; r := @this: java.lang.IllegalArgumentException; specialinvoke r.<java.lang.RuntimeException: void <init>()>(); return; }
  void <init>(java.lang.String) { java.lang.IllegalArgumentException r; java.lang.String s; r := @this: java.lang.IllegalArgumentException; s := @parameter0: java.lang.String; specialinvoke r.<java.lang.RuntimeException: void <init>(java.lang.String)>(s); return; }
}
class java.lang.IllegalStateException extends java.lang.RuntimeException {
  void <init>() { java.lang.IllegalStateException r; r := @this: java.lang.IllegalStateException; specialinvoke r.<java.lang.RuntimeException: void <init>()>(); return; }
  void <init>(java.lang.String) { java.lang.IllegalStateException r; java.lang.String s; r := @this: java.lang.IllegalStateException; s := @parameter0: java.lang.String; specialinvoke r.<java.lang.RuntimeException: void <init>(java.lang.String)>(s); return; }
}
class java.lang.UnsupportedOperationException extends java.lang.RuntimeException {
  void <init>() { java.lang.UnsupportedOperationException r; r := @this: java.lang.UnsupportedOperationException; specialinvoke r.<java.lang.RuntimeException: void <init>()>(); return; }
  void <init>(java.lang.String) { java.lang.UnsupportedOperationException r; java.lang.String s; r := @this: java.lang.UnsupportedOperationException; s := @parameter0: java.lang.String; specialinvoke r.<java.lang.RuntimeException: void <init>(java.lang.String)>(s); return; }
}
class java.lang.NumberFormatException extends java.lang.IllegalArgumentException {
  void <init>() { java.lang.NumberFormatException r; r := @this: java.lang.NumberFormatException; specialinvoke r.<java.lang.IllegalArgumentException: void <init>()>(); return; }
  void <init>(java.lang.String) { java.lang.NumberFormatException r; java.lang.String s; r := @this: java.lang.NumberFormatException; s := @parameter0: java.lang.String; specialinvoke r.<java.lang.IllegalArgumentException: void <init>(java.lang.String)>(s); return; }
}
class java.util.NoSuchElementException extends java.lang.RuntimeException {
  void <init>() { java.util.NoSuchElementException r; r := @this: java.util.NoSuchElementException; specialinvoke r.<java.lang.RuntimeException: void <init>()>(); return; }
  void <init>(java.lang.String) { java.util.NoSuchElementException r; java.lang.String s; r := @this: java.util.NoSuchElementException; s := @parameter0: java.lang.String; specialinvoke r.<java.lang.RuntimeException: void <init>(java.lang.String)>(s); return; }
}
class java.io.IOException extends java.lang.Exception {
  void <init>() { java.io.IOException r; r := @this: java.io.IOException; specialinvoke r.<java.lang.Exception: void <init>()>(); return; }
  void <init>(java.lang.String) { java.io.IOException r; java.lang.String s; r := @this: java.io.IOException; s := @parameter0: java.lang.String; specialinvoke r.<java.lang.Exception: void <init>(java.lang.String)>(s); return; }
}
class java.lang.StringBuilder implements java.lang.CharSequence {
  void <init>() { return; }
  void <init>(java.lang.String) { return; }
  java.lang.StringBuilder append(java.lang.String) { java.lang.StringBuilder s; s := @this: java.lang.StringBuilder; return s; }
  java.lang.StringBuilder append(int) { java.lang.StringBuilder s; s := @this: java.lang.StringBuilder; return s; }
  java.lang.StringBuilder append(char) { java.lang.StringBuilder s; s := @this: java.lang.StringBuilder; return s; }
  java.lang.StringBuilder append(long) { java.lang.StringBuilder s; s := @this: java.lang.StringBuilder; return s; }
  java.lang.StringBuilder append(boolean) { java.lang.StringBuilder s; s := @this: java.lang.StringBuilder; return s; }
  int length() { return 0; }
  java.lang.String toString() { java.lang.String s; s = new java.lang.String; return s; }
}
class java.lang.System {
  static java.io.PrintStream out;
  static java.io.PrintStream err;
  static void <clinit>() { java.io.PrintStream p, q; p = new java.io.PrintStream; <java.lang.System: java.io.PrintStream out> = p; q = new java.io.PrintStream; <java.lang.System: java.io.PrintStream err> = q; return; }
  static long currentTimeMillis() { return 0; }
  static void exit(int) { return; }
}
class java.io.PrintStream {
  void println() { return; }
  void println(java.lang.String) { return; }
  void print(java.lang.String) { return; }
  void println(int) { return; }
  void print(int) { return; }
  void println(char) { return; }
  void print(char) { return; }
  void println(long) { return; }
  void print(long) { return; }
  void println(boolean) { return; }
  void print(boolean) { return; }
  void println(java.lang.Object) { java.lang.Object o; java.lang.String s; o := @parameter0: java.lang.Object; if 0 == 1 goto label1; s = virtualinvoke o.<java.lang.Object: java.lang.String toString()>(); label1: return; }
  void print(java.lang.Object) { java.lang.Object o; java.lang.String s; o := @parameter0: java.lang.Object; if 0 == 1 goto label1; s = virtualinvoke o.<java.lang.Object: java.lang.String toString()>(); label1: return; }
}
interface java.lang.CharSequence {
  int length();
}
interface java.lang.Comparable {
  int compareTo(java.lang.Object);
}
class java.lang.Integer {
  void <init>(int) { return; }
  static java.lang.Integer valueOf(int) { java.lang.Integer s; s = new java.lang.Integer; return s; }
  int intValue() { return 0; }
}
";

/// The text is the one that is defined class by class and member by member, and as long as a text that is read may be, or shorter.
pub fn prelude_is_whole()
    ensures short { length PRELUDE.now ≤ 16777216 }
    ensures text { PRELUDE.now ≡ prelude_text }
{}
